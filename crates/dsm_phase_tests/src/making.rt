// A phase over answers that a test gives it.
ghost use Rattle.std.specs.Prelude.{◌≡◌, true};
ghost use Rattle.dsm_words.specs.Script.{is_open};

use dsm_words::op::Op;
use dsm_words::phase::Phase;
use dsm_words::turn::Turn;
use std::process::Abort;

pub(crate) fn load(at: u64) -> Op {
    Op::Load { at }
}

pub(crate) fn store(at: u64, v: u64) -> Op {
    Op::Store { at, v }
}

/// What a phase ends with that makes this list and no more, each operation with its answer.
#[tactic(auto, using(dsm_words::proofs::Loops::more_open))]
pub(crate) fn made<P: Phase>(rt: &impl Abort, phase: &mut P, list: &[(Op, u64)]) -> Option<P::Out>
    requires { is_open (P.rest phase.old) ≡ true }
{
    for (i, (op, answer)) in list.iter().enumerate() {
        assert_eq!(rt; phase.next(), *op, "operation {i}");
        if let Turn::Done(out) = phase.after(*answer) {
            assert_eq!(rt; i + 1, list.len());
            return Some(out);
        }
    }
    None
}
