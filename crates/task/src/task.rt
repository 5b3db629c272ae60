// The type of a task.
ghost use Rattle.std.specs.Prelude.{◌≡◌, vec_len};
ghost use Rattle.task_form.specs.Form.{Filed};
ghost use Rattle.task_file.specs.Views.{task_in};

use task_file::Lists;

// The task of a line. Only reading a file makes one, so that some file denotes it.
#[derive(Drop)]
pub struct Task {
    pub(crate) lists: Lists,
    ghost complete: { vec_len lists.moves ≡ lists.sizes.moves },
    ghost filed: { Filed (task_in lists) },
}
