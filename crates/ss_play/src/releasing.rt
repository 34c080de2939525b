ghost use Rattle.std.specs.Prelude.{◌≡◌, ◌<◌, ◌∷◌, [], get_or, length};
ghost use Rattle.ss_play.specs.Releasing.{ReleasesAll, ReleasesFiles, is_source_of, least_mark, lesser, text_at};

use ss_job::{Job, Op};
use ss_outside::Inputs;

/// Gives up, of each source's file, the elements below the least mark of the sources that have it. `marks` has one for
/// each vertex.
pub fn release_all<I: Inputs>(inputs: &mut I, job: &Job, marks: &[u64])
    requires { length marks.now ≡ length job.now.vertices }
    ensures { ReleasesAll job.now (λ v. get_or marks.now v 0) (I.told inputs.old) (I.told inputs.new) }
{
    for v in 0..job.graph().count() {
        release_file(inputs, job, marks, v);
    }
}

/// Gives up those of the file of vertex `v`, if it is a source.
fn release_file<I: Inputs>(inputs: &mut I, job: &Job, marks: &[u64], v: u32)
    requires marks { length marks.now ≡ length job.now.vertices }
    requires vertex { v < length job.now.vertices }
    ensures { ReleasesFiles job.now (λ v. get_or marks.now v 0) (text_at job.now v ∷ [])
        (I.told inputs.old) (I.told inputs.new) }
{
    match job.op(v) {
        Op::Source => {
            let file = job.file(v);
            inputs.release(file, least_mark(job, marks, file));
        }
        _ => (),
    }
}

/// The least mark of the sources with this file; 0 where there are none.
fn least_mark(job: &Job, marks: &[u64], name: &str) -> u64
    requires { length marks.now ≡ length job.now.vertices }
    ensures { result ≡ least_mark job.now (λ v. get_or marks.now v 0) name.now }
{
    let mut least = None;
    for v in 0..job.graph().count() {
        if is_source_of(job, v, name) {
            least = Some(lesser(least, marks[v as usize]));
        }
    }
    least.unwrap_or(0)
}

/// Whether vertex `v` is a source with this file.
fn is_source_of(job: &Job, v: u32, name: &str) -> bool
    requires { v < length job.now.vertices }
    ensures { result ≡ is_source_of name.now (text_at job.now v) }
{
    match job.op(v) {
        Op::Source => job.file(v) == name,
        _ => false,
    }
}

/// The lesser of two marks, or the one that there is.
fn lesser(least: Option<u64>, mark: u64) -> u64
    ensures { result ≡ lesser least mark }
{
    match least {
        Some(other) => other.min(mark),
        None => mark,
    }
}
