//! The worked rows, as cases.

/// What the engine is to give, row by row.
pub(crate) const ROWS: &str =
    r#"# The rows that the engine is to give, worked out by hand, in the order in which its parts were built.

given a copy
file job.toml
    vertex = [
        { name = 'in', op = 'source', file = 'in.csv' },
        { name = 'out', op = 'sink', inputs = ['in'], file = 'out.csv' },
    ]

given a copied row and mark
words run job.toml
with a copy
file in.csv
    event,5,9,k,3,0
    cti,10

given a window
words run job.toml
file job.toml
    vertex = [
        { name = 'in', op = 'source', file = 'in.csv' },
        { name = 'w', op = 'window', inputs = ['in'], size = 20, hop = 10, agg = 'sum' },
        { name = 'out', op = 'sink', inputs = ['w'], file = 'out.csv' },
    ]

given a join
words run job.toml
file job.toml
    vertex = [
        { name = 'l', op = 'source', file = 'l.csv' },
        { name = 'r', op = 'source', file = 'r.csv' },
        { name = 'j', op = 'join', inputs = ['l', 'r'] },
        { name = 'out', op = 'sink', inputs = ['j'], file = 'out.csv' },
    ]

case a source goes to its sink
with a copied row and mark
text out.csv
    event,5,9,k,3,0
    cti,10
    end
text -
    sink out 3
    done

case an empty file has its end
words run job.toml
with a copy
file in.csv
text out.csv
    end
text -
    sink out 1
    done

case a row falls into two windows, and the last closes at the end
with a window
file in.csv
    event,5,9,k,3,0
    event,12,13,k,4,0
    cti,20
text out.csv
    event,10,20,k,3,1
    event,20,30,k,7,2
    cti,20
    event,30,40,k,4,1
    end
text -
    sink out 5
    done

case rows of one key that overlap are joined
with a join
file l.csv
    event,1,10,k,1,0
    cti,20
file r.csv
    event,5,7,k,2,0
    cti,6
    event,9,12,k,3,0
text out.csv
    event,5,7,k,1,2
    cti,6
    event,9,10,k,1,3
    cti,20
    end
text -
    sink out 5
    done

case spans that touch are not joined
with a join
file l.csv
    event,1,5,k,1,0
    cti,5
file r.csv
    event,5,9,k,2,0
    cti,5
text out.csv
    cti,5
    end
text -
    sink out 2
    done

case a union takes from both inputs
words run job.toml
file job.toml
    vertex = [
        { name = 'l', op = 'source', file = 'l.csv' },
        { name = 'r', op = 'source', file = 'r.csv' },
        { name = 'u', op = 'union', inputs = ['l', 'r'] },
        { name = 'out', op = 'sink', inputs = ['u'], file = 'out.csv' },
    ]
file l.csv
    event,1,2,p,1,0
    cti,5
file r.csv
    event,1,2,q,2,0
    cti,5
text out.csv
    event,1,2,p,1,0
    event,1,2,q,2,0
    cti,5
    end
text -
    sink out 4
    done

case a window end without rows is never visited
words run job.toml
file job.toml
    vertex = [
        { name = 'in', op = 'source', file = 'in.csv' },
        { name = 'w', op = 'window', inputs = ['in'], size = 1, hop = 1, agg = 'sum' },
        { name = 'out', op = 'sink', inputs = ['w'], file = 'out.csv' },
    ]
file in.csv
    event,1,2,k,5,0
    cti,2305843009213693952
    event,2305843009213693952,2305843009213693953,k,6,0
text out.csv
    event,2,3,k,5,1
    cti,2305843009213693952
    event,2305843009213693953,2305843009213693954,k,6,1
    end
text -
    sink out 4
    done

case a sum is clamped
words run job.toml
file job.toml
    vertex = [
        { name = 'in', op = 'source', file = 'in.csv' },
        { name = 'w', op = 'window', inputs = ['in'], size = 10, hop = 10, agg = 'sum' },
        { name = 'out', op = 'sink', inputs = ['w'], file = 'out.csv' },
    ]
file in.csv
    event,1,2,k,9223372036854775807,0
    event,2,3,k,9223372036854775807,0
text out.csv
    event,10,20,k,9223372036854775807,2
    end
text -
    sink out 2
    done

case a late row is refused
words run job.toml
with a copy
file in.csv
    cti,10
    event,9,12,k,1,0
status 4
text !
    streamscope: events in.csv: row 2: event starts at 9, before 10

case a late row is dropped
words run job.toml
file job.toml
    vertex = [
        { name = 'in', op = 'source', file = 'in.csv', late = 'drop' },
        { name = 'out', op = 'sink', inputs = ['in'], file = 'out.csv' },
    ]
file in.csv
    cti,10
    event,9,12,k,1,0
text out.csv
    cti,10
    end
text -
    sink out 2
    done

case a key is too long
words run job.toml
with a copy
file in.csv
    event,5,9,abcdefghijklmnopq,3,0
status 4
text !
    streamscope: events in.csv: row 1: bad key

case an input stands before its reader
words run job.toml
file job.toml
    vertex = [
        { name = 'w', op = 'select', inputs = ['in'] },
        { name = 'in', op = 'source', file = 'in.csv' },
        { name = 'out', op = 'sink', inputs = ['w'], file = 'out.csv' },
    ]
status 3
text !
    streamscope: job: vertex 0: input names no earlier vertex

given a select with two replicas
file job.toml
    vertex = [
        { name = 's', op = 'source', file = 's.csv' },
        { name = 'w', op = 'select', inputs = ['s'], replicas = 2 },
        { name = 'o', op = 'sink', inputs = ['w'], file = 'o.csv' },
    ]
file s.csv
    event,1,2,k,1,0
    event,2,3,k,2,0
    event,3,4,k,3,0

given a play of two replicas
words play job.toml --schedule s.txt
with a select with two replicas

case two replicas race to a write
with a play of two replicas
acts
    read s 0: got 0 0
    write s 0: stored 0
    read w 0: got 0 0
    read w 1: got 0 0
    write w 0: stored 0
    write w 1: known 0
text -
    stream s base 0 dur 0 from 0 end 1 torn no mark 0
    inst s 0 up n 1 next 1 left 0
    stream w base 0 dur 0 from 0 end 1 torn no snaps 0
    inst w 0 up n 1 next 1 left 0
    inst w 1 up n 1 next 1 left 0
    sink o taken 0
    journal 0 since 0

case a source goes on from what is stored
with a play of two replicas
acts
    read s 0: got 0 0
    write s 0: stored 0
    read s 0: got 0 1
    write s 0: stored 1
    read s 0: got 0 2
    write s 0: stored 2
    flush s 1: flushed 1
    lose s: lost 3
    read s 0: got 0 3
    write s 0: gap 1
    load s 0: loaded 1
    read s 0: got 0 1
    write s 0: stored 1
text -
    stream s base 0 dur 1 from 1 end 2 torn yes mark 0
    inst s 0 up n 2 next 2 left 0
    stream w base 0 dur 0 from 0 end 0 torn no snaps 0
    inst w 0 up n 0 next 0 left 0
    inst w 1 up n 0 next 0 left 0
    sink o taken 0
    journal 1 since 1

case a stream that was never stored is collected
with a play of two replicas
acts
    read s 0: got 0 0
    write s 0: stored 0
    read s 0: got 0 1
    write s 0: stored 1
    read s 0: got 0 2
    write s 0: stored 2
    read w 0: got 0 0
    write w 0: stored 0
    read w 0: got 0 1
    write w 0: stored 1
    read w 0: got 0 2
    write w 0: stored 2
    snap w 0: kept 3
    flush w 3: flushed 3
    lose s: lost 3
    collect s: base 3
    read s 0: got 0 3
    write s 0: gap 0
    load s 0: loaded 3
    read s 0: got 0 3
    write s 0: stored 3
    read w 0: got 0 3
    write w 0: stored 3
text -
    stream s base 3 dur 3 from 3 end 4 torn yes mark 0
    inst s 0 up n 4 next 4 left 0
    stream w base 0 dur 3 from 0 end 4 torn no snaps 0 3
    inst w 0 up n 4 next 4 left 0
    inst w 1 up n 0 next 0 left 0
    sink o taken 0
    journal 3 since 3

case a slow replica finds an element gone and loads a snapshot
with a play of two replicas
acts
    read s 0: got 0 0
    write s 0: stored 0
    read s 0: got 0 1
    write s 0: stored 1
    read s 0: got 0 2
    write s 0: stored 2
    read w 0: got 0 0
    write w 0: stored 0
    read w 0: got 0 1
    write w 0: stored 1
    read w 0: got 0 2
    write w 0: stored 2
    read w 1: got 0 0
    write w 1: known 0
    snap w 0: kept 3
    flush s 3: flushed 3
    flush w 3: flushed 3
    collect s: base 3
    flush s 1: flushed 0
    snap w 1: old 3
    read w 1: gone 0 1
    load w 1: loaded 3
    take o: took 0
text -
    stream s base 3 dur 3 from 3 end 3 torn no mark 0
    inst s 0 up n 3 next 3 left 0
    stream w base 0 dur 3 from 0 end 3 torn no snaps 0 3
    inst w 0 up n 3 next 3 left 0
    inst w 1 up n 3 next 3 left 0
    sink o taken 1
    journal 5 since 6
text o.csv
    event,1,2,k,1,0

case a loss and a crash change nothing
words run job.toml --failures f.txt
with a select with two replicas
file f.txt
    when w 4 lose w
    when w 2 crash w 0
text o.csv
    event,1,2,k,1,0
    event,2,3,k,2,0
    event,3,4,k,3,0
    end
text -
    sink o 4
    done

case the third append fails
with a copied row and mark
fail append 3
status 6
text !
    streamscope: store fault

case the second put fails behind four bytes
with a copied row and mark
put 2 keeps 4
status 7
text out.csv
    event,5,9,k,3,0
    cti,\
text !
    streamscope: output fault

case the first fetch is damaged
with a copied row and mark
damage fetch 1
status 11
text !
    streamscope: stored bytes damaged: in 0

case a flush waits for a pass that is due
words play job.toml --schedule s.txt
file job.toml
    job = { collect_every = 64 }
    vertex = [
        { name = 'in', op = 'source', file = 'in.csv' },
        { name = 'out', op = 'sink', inputs = ['in'], file = 'out.csv' },
    ]
file in.csv
    \repeat 70
    event,\{i},\{i+1},k,0,0
    \end
acts
    \repeat 65
    read in 0: got 0 \{i}
    write in 0: stored \{i}
    \end
    flush in 64: flushed 64
    flush in 1: pass_due 64
    pass: passed
    flush in 1: flushed 1
    take out: took 0
text -
    stream in base 0 dur 65 from 0 end 65 torn no mark 64
    inst in 0 up n 65 next 65 left 0
    sink out taken 1
    journal 4 since 1
text out.csv
    event,0,1,k,0,0

given clicks and views
file job.toml
    vertex = [
        { name = 'clicks', op = 'source', file = 'clicks.csv' },
        { name = 'views', op = 'source', file = 'views.csv' },
        { name = 'hot', op = 'select', inputs = ['clicks'], where = 'a > 0' },
        { name = 'load', op = 'window', inputs = ['hot'], size = 200, hop = 50, agg = 'sum', replicas = 2 },
        { name = 'pair', op = 'join', inputs = ['clicks', 'views'] },
        { name = 'near', op = 'select', inputs = ['pair'], where = 'a >= b', recover = 'replay' },
        { name = 'o1', op = 'sink', inputs = ['load'], file = 'load.csv' },
        { name = 'o2', op = 'sink', inputs = ['near'], file = 'near.csv' },
    ]

given clicks and views in short streams
file job.toml
    job = { max_elements = 4 }
    vertex = [
        { name = 'clicks', op = 'source', file = 'clicks.csv' },
        { name = 'views', op = 'source', file = 'views.csv' },
        { name = 'hot', op = 'select', inputs = ['clicks'], where = 'a > 0' },
        { name = 'load', op = 'window', inputs = ['hot'], size = 200, hop = 50, agg = 'sum', replicas = 2 },
        { name = 'pair', op = 'join', inputs = ['clicks', 'views'] },
        { name = 'near', op = 'select', inputs = ['pair'], where = 'a >= b', recover = 'replay' },
        { name = 'o1', op = 'sink', inputs = ['load'], file = 'load.csv' },
        { name = 'o2', op = 'sink', inputs = ['near'], file = 'near.csv' },
    ]

given two thousand of each
file clicks.csv
    \repeat 2000
    event,\{10*i},\{10*i+30},u\{i%7},\{i%5},0
    \every 50 cti,\{10*i+10}
    \end
file views.csv
    \repeat 2000
    event,\{10*i+5},\{10*i+25},u\{i%11},\{i%3},0
    \every 50 cti,\{10*i+10}
    \end
file f.txt
    when hot 100 crash hot 0
    when hot 200 lose hot
    when load 10 crash load 1
    when pair 20 lose clicks
    when near 10 crash near 0
    when near 20 lose pair

case a long job that is broken has the output of plain
words run job.toml --workers 4 --failures f.txt
with clicks and views
with two thousand of each
alike load.csv near.csv
begins -
    sink o1\s\

case a stream of the long job is too long
words run job.toml --workers 4 --failures f.txt
with clicks and views in short streams
with two thousand of each
status 9
text !
    streamscope: stream clicks passes 4 elements

case words are no command
words run
words play job.toml
words run job.toml --workers 9
with a copy
status 2
text !
    usage: streamscope check|plain|play|run|gen SUBJECT [--workers N] [--failures F] [--schedule F] [--trace F]

case check tells a job
words check job.toml
file job.toml
    vertex = [
        { name = 'in', op = 'source', file = 'in.csv' },
        { name = 'w', op = 'window', inputs = ['in'], size = 20, hop = 10, agg = 'sum' },
        { name = 'out', op = 'sink', inputs = ['w'], file = 'out.csv' },
    ]
text -
    0 in source
    1 w window in
    2 out sink w
    ok 3

case a schedule has a word that is none
with a play of two replicas
file s.txt
    read s 0
    fly s
status 8
text !
    streamscope: script s.txt: line 2: bad word

case a schedule names a replica that is none
with a play of two replicas
file s.txt
    read w 2
status 8
text !
    streamscope: script s.txt: line 1: no such replica

case a size is no multiple of its hop
words run job.toml
file job.toml
    vertex = [
        { name = 'in', op = 'source', file = 'in.csv' },
        { name = 'w', op = 'window', inputs = ['in'], size = 25, hop = 10, agg = 'sum' },
        { name = 'out', op = 'sink', inputs = ['w'], file = 'out.csv' },
    ]
status 3
text !
    streamscope: job: vertex 1: size is 25, not 10 to 640

case a test is no truth
words run job.toml
file job.toml
    vertex = [
        { name = 'in', op = 'source', file = 'in.csv' },
        { name = 'w', op = 'select', inputs = ['in'], where = 'a' },
        { name = 'out', op = 'sink', inputs = ['w'], file = 'out.csv' },
    ]
status 3
text !
    streamscope: job: vertex 1: bad expression where at 0

case a header, padded rows and an equal mark
words run job.toml
with a copy
file in.csv
    kind,start,end,key,a
    event,5,9,k,3
    cti,10,,,,
    cti,10
    end,,,,,
text out.csv
    event,5,9,k,3,0
    cti,10
    end
text -
    sink out 3
    done

case a mark goes back
words run job.toml
with a copy
file in.csv
    cti,10
    cti,9
status 4
text !
    streamscope: events in.csv: row 2: cti goes back from 10 to 9

case a row has too few fields
words run job.toml
with a copy
file in.csv
    event,x,9,k
status 4
text !
    streamscope: events in.csv: row 1: bad number of fields

case a span is empty
words run job.toml
with a copy
file in.csv
    event,7,7,k,0,0
status 4
text !
    streamscope: events in.csv: row 1: empty span

case a select swaps two values
words run job.toml
file job.toml
    vertex = [
        { name = 'in', op = 'source', file = 'in.csv' },
        { name = 'w', op = 'select', inputs = ['in'], a = 'b', b = 'a' },
        { name = 'out', op = 'sink', inputs = ['w'], file = 'out.csv' },
    ]
file in.csv
    event,5,9,k,3,4
text out.csv
    event,5,9,k,4,3
    end
text -
    sink out 2
    done

case a stream stands twice in a union
words run job.toml
file job.toml
    vertex = [
        { name = 'in', op = 'source', file = 'in.csv' },
        { name = 'u', op = 'union', inputs = ['in', 'in'] },
        { name = 'out', op = 'sink', inputs = ['u'], file = 'out.csv' },
    ]
file in.csv
    event,1,2,p,1,0
    cti,5
text out.csv
    event,1,2,p,1,0
    event,1,2,p,1,0
    cti,5
    end
text -
    sink out 4
    done

case a source passes its limit
words run job.toml
file job.toml
    job = { max_elements = 1 }
    vertex = [
        { name = 'in', op = 'source', file = 'in.csv' },
        { name = 'out', op = 'sink', inputs = ['in'], file = 'out.csv' },
    ]
file in.csv
    event,5,9,k,3,0
    cti,10
status 9
text !
    streamscope: stream in passes 1 elements

case the least of the second value
words run job.toml
file job.toml
    vertex = [
        { name = 'in', op = 'source', file = 'in.csv' },
        { name = 'w', op = 'window', inputs = ['in'], size = 30, hop = 10, agg = 'min', of = 'b' },
        { name = 'out', op = 'sink', inputs = ['w'], file = 'out.csv' },
    ]
file in.csv
    event,1,2,k,0,5
    event,2,3,k,0,-3
text out.csv
    event,10,20,k,-3,2
    event,20,30,k,-3,2
    event,30,40,k,-3,2
    end
text -
    sink out 4
    done

case the summary is cut behind five bytes
with a copied row and mark
put 4 keeps 5
status 7
text out.csv
    event,5,9,k,3,0
    cti,10
    end
text -
    sink\s\
text !
    streamscope: output fault

case the second read fails
with a copied row and mark
fail read 2
status 5
text !
    streamscope: cannot read in.csv
"#;
