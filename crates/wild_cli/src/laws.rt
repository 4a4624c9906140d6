//! What follows from the end of a run.

ghost use Rattle.std.specs.Prelude.{◌≡◌, ◌⊎◌, ℕ, List, Option, Some};
ghost use Rattle.wild_plan_spec.specs.Names.{Name};
ghost use Rattle.wild_cli.specs.Device.{Rose};
ghost use Rattle.wild_cli.specs.Due.{Answer, Task, task_of, Meets, status_of_answer};
ghost use Rattle.wild_cli.specs.Run.{Loading, Putting, Outcome};
ghost use Rattle.wild_words.specs.declared.words.Request.{Request};

/// Where no load and no put failed, a run ends with the status of each answer that meets its task, unless memory ran
/// out. So it ends with 0 where a plan fits.
pub fn unfailing_runs_end()
    ensures { (held : Name → Option (List ℕ)) (command : Option Request) (files : Loading) (out err : Putting) (status : ℕ) (task : Task) (answer : Answer)
        → Outcome held command files out err status
        → (Rose files.before files.now → ⊥) → (Rose out.before out.now → ⊥) → (Rose err.before err.now → ⊥)
        → task_of held command ≡ Some task → Meets task answer
        → (status ≡ status_of_answer answer) ⊎ (status ≡ 5) }
{}

/// A count that stays at 0 never rose.
pub fn count_at_zero_never_rose()
    ensures { Rose 0 0 → ⊥ }
{}
