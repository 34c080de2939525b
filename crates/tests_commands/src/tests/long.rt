//! Cases of long files. Built without care for speed a program would take minutes for them, so a test runs them.

/// Event files at the limit of their rows.
pub(crate) const LONG: &str = r#"# Event files at the limit of their rows.

given a copy
words plain job.toml
file job.toml
    vertex = [
        { name = 'in', op = 'source', file = 'in.csv' },
        { name = 'out', op = 'sink', inputs = ['in'], file = 'out.csv' },
    ]

case a file of 131,072 rows is read, and its end is one element too many
with a copy
file in.csv
    \{131072 of event,0,1,k,0,0\n}\
status 9
text !
    streamscope: stream in passes 131072 elements

case a file of 131,073 rows
with a copy
file in.csv
    \{131073 of event,0,1,k,0,0\n}\
status 4
text !
    streamscope: events in.csv: row 131073: too many rows

case a file of a header and 131,071 rows
with a copy
file in.csv
    kind,start,end,key,a
    \{131071 of event,0,1,k,0,0\n}\
text out.csv
    \{131071 of event,0,1,k,0,0\n}\
    end

case a file of a header and 131,072 rows
with a copy
file in.csv
    kind,start,end,key,a
    \{131072 of event,0,1,k,0,0\n}\
status 4
text !
    streamscope: events in.csv: row 131073: too many rows

table one row too many comes before its other faults
with a copy
file in.csv
    \{\1 of cti,5\n}\2\
status 4
text !
    streamscope: events in.csv: row 131073: too many rows
rows
    131072 => cti,5\n
    131072 => x\n
    131072 => cti\n
    131072 => cti,x\n
    131072 => event,5,6,,0,0\n
    131072 => event,7,7,k,0,0\n
    131072 => event,4,6,k,0,0\n
    131072 => cti,4\n
    131071 => end\nend\n

given two copies
words run job.toml
file job.toml
    \e
    vertex = [
        { name = 'one', op = 'source', file = 'one.csv' },
        { name = 'o1', op = 'sink', inputs = ['one'], file = 'x.csv' },
        { name = 'two', op = 'source', file = 'two.csv' },
        { name = 'o2', op = 'sink', inputs = ['two'], file = 'y.csv' },
    ]

case 131,072 rows say nothing
with two copies
file one.csv
    event,5,9,k,3,0
    cti,10
file two.csv
    \{131072 of cti,0\n}\
text x.csv
    event,5,9,k,3,0
    cti,10
    end
text y.csv
    end
text -
    sink o1 3
    sink o2 1
    done

case one row more is refused
with two copies
file one.csv
    event,5,9,k,3,0
    cti,10
file two.csv
    \{131072 of cti,0\n}evnt
status 4
text !
    streamscope: events two.csv: row 131073: too many rows
"#;
