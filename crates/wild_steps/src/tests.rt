ghost use Rattle.std.specs.Prelude.{◌≡◌, ◌+◌, ◌*◌};

use crate::Steps;
use std::marker::Brand;
use std::sync::ledger::{Blank, Ledger};

fn three_steps<L: Ledger>(steps: &mut Steps<L>)
    ensures { steps.new ≡ steps.old + 3 }
{
    steps.tick();
    steps.tick();
    steps.tick();
}

fn counted<L: Ledger>(blank: Blank)
    requires name { blank.name ≡ L.name }
    requires parts { blank.parts ≡ L.parts }
    requires one { blank.parts ≡ 1 }
{
    let mut steps: Steps<L> = Steps::new(blank);
    three_steps(&mut steps);
}

#[test]
fn steps_of_a_ledger() {
    counted::<Brand>(Blank::new(1));
}
