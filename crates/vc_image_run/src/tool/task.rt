ghost use Rattle.std.specs.Prelude.{◌≡◌, OnSome, length, map, string_bytes};
ghost use Rattle.vc_image_run.specs.Tool.Task.{task_named, task_of};

/// What is done with an image. This project's own.
#[derive(Clone, Copy, Debug, PartialEq, Eq)]
pub enum ImageTask {
    /// It is judged: `check`.
    Check,
    /// What it holds is shown: `show`.
    Show,
    /// It is made of what a script leaves: `save`.
    Save,
    /// A script is run over it, and it is made of what that leaves: `run`.
    Run,
}

// The task of that name.
fn named(name: &str) -> Option<ImageTask>
    ensures { result ≡ task_named name.now }
{
    if name == "check" {
        return Some(ImageTask::Check);
    }
    if name == "show" {
        return Some(ImageTask::Show);
    }
    if name == "save" {
        return Some(ImageTask::Save);
    }
    if name == "run" {
        return Some(ImageTask::Run);
    }
    None
}

/// What the words behind a program's name ask for: the name of a task, and that of a file, the second word. None where
/// the first isn't one, or there aren't two.
pub fn task_of(words: &[String]) -> Option<ImageTask>
    ensures task { result ≡ task_of (map string_bytes words.now) }
    ensures file { OnSome result (length words.now ≡ 2) }
{
    match words {
        [name, _] => named(name.as_str()),
        _ => None,
    }
}
