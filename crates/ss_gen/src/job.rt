ghost use Rattle.std.specs.Prelude.{◌≡◌, ◌++◌, OnErr, OnOk};
ghost use Rattle.ss_gen.specs.Job.{job_text};

use crate::Memory;

/// The generated job.
const JOB: &[u8] = b"\
[job]\n\
collect_every = 512\n\
[[vertex]]\n\
name = \"a\"\n\
op = \"source\"\n\
file = \"gen-a.csv\"\n\
[[vertex]]\n\
name = \"b\"\n\
op = \"source\"\n\
file = \"gen-b.csv\"\n\
[[vertex]]\n\
name = \"big\"\n\
op = \"select\"\n\
inputs = [\"a\"]\n\
where = \"a > 0\"\n\
recover = \"replay\"\n\
[[vertex]]\n\
name = \"load\"\n\
op = \"window\"\n\
inputs = [\"big\"]\n\
size = 640\n\
hop = 160\n\
agg = \"sum\"\n\
replicas = 2\n\
[[vertex]]\n\
name = \"pair\"\n\
op = \"join\"\n\
inputs = [\"a\", \"b\"]\n\
[[vertex]]\n\
name = \"all\"\n\
op = \"union\"\n\
inputs = [\"load\", \"pair\"]\n\
[[vertex]]\n\
name = \"o1\"\n\
op = \"sink\"\n\
inputs = [\"load\"]\n\
file = \"gen-load.csv\"\n\
[[vertex]]\n\
name = \"o2\"\n\
op = \"sink\"\n\
inputs = [\"all\"]\n\
file = \"gen-all.csv\"\n";

/// Appends the job that reads the two generated event files, or nothing.
pub fn gen_job(out: &mut Vec<u8>) -> Result<(), Memory>
    ensures text { OnOk result (out.new.items ≡ out.old.items ++ job_text) }
    ensures kept { OnErr result (out.new.items ≡ out.old.items) }
{
    out.extend_from_slice(JOB)
}
