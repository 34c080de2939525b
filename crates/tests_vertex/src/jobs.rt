//! The jobs of these tests.

/// A select of one key that computes new values; it is vertex 1.
pub(crate) const SELECT: &str = "
vertex = [
    { name = 'in', op = 'source', file = 'in.csv' },
    { name = 's', op = 'select', inputs = ['in'], where = \"key = 'k'\", a = 'a * 3 - b', b = 'a / 0' },
    { name = 'out', op = 'sink', inputs = ['s'], file = 'out.csv' },
]
";

/// A union of two sources; it is vertex 2.
pub(crate) const UNION: &str = "
vertex = [
    { name = 'l', op = 'source', file = 'l.csv' },
    { name = 'r', op = 'source', file = 'r.csv' },
    { name = 'u', op = 'union', inputs = ['l', 'r'] },
    { name = 'out', op = 'sink', inputs = ['u'], file = 'out.csv' },
]
";

/// A window of size 20 and hop 10 that sums; it is vertex 1.
pub(crate) const WINDOW: &str = "
vertex = [
    { name = 'in', op = 'source', file = 'in.csv' },
    { name = 'w', op = 'window', inputs = ['in'], size = 20, hop = 10, agg = 'sum' },
    { name = 'out', op = 'sink', inputs = ['w'], file = 'out.csv' },
]
";

pub(crate) const WINDOW_FILE: &str = "event,5,9,k,3,0\nevent,12,13,k,4,0\ncti,20\n";

pub(crate) const WINDOW_LINES: &str =
    "event,10,20,k,3,1\nevent,20,30,k,7,2\ncti,20\nevent,30,40,k,4,1\nend\n";

/// A join of two sources; it is vertex 2.
pub(crate) const JOIN: &str = "
vertex = [
    { name = 'l', op = 'source', file = 'l.csv' },
    { name = 'r', op = 'source', file = 'r.csv' },
    { name = 'j', op = 'join', inputs = ['l', 'r'] },
    { name = 'out', op = 'sink', inputs = ['j'], file = 'out.csv' },
]
";
