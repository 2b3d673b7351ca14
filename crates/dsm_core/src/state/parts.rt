// A state as its words and machines.
ghost use Rattle.std.specs.Prelude.{◌≡◌, List};
ghost use Rattle.dsm_isa.specs.ProgramText.{ProgramText};
ghost use Rattle.dsm_isa.specs.declared.instr.Instr.{Instr};
ghost use Rattle.dsm_words.specs.Place.{lay_of};
ghost use Rattle.dsm_runs.specs.Setups.{lay_in};
ghost use Rattle.dsm_core.specs.States.{setup_of};

use super::State;
use dsm_machine::machine::Machine;
use dsm_protocol::limits::Limits;
use dsm_words::layout::Layout;

/// The words and the machines of a state, for whoever steps the machines by other means.
#[derive(Drop)]
pub struct Parts {
    pub lay: Layout,
    pub limits: Limits,
    pub words: Vec<u64>,
    pub machines: Vec<Machine>,
}

impl State {
    ghost use Rattle.dsm_core.specs.States.{setup_in, cluster_in, IsFor};
    ghost use Rattle.dsm_core.specs.Parts.{AreWhole, cluster_of};

    /// The state's words and machines. It takes no memory.
    pub fn into_parts(self) -> Parts
        ensures whole { AreWhole result }
        ensures setup { (program : ProgramText) → setup_of program result.lay.t result.limits ≡ setup_in self program }
        ensures is_for { (program : ProgramText) → IsFor self program → lay_of result.lay ≡ lay_in (setup_in self program) }
        ensures cluster { (code : List Instr) → cluster_of result code ≡ cluster_in self code }
    {
        let State {
            lay,
            limits,
            words,
            machines,
        } = self;
        Parts {
            lay,
            limits,
            words,
            machines,
        }
    }

    /// The state of these words and machines. It takes no memory.
    pub fn of_parts(parts: Parts) -> State
        requires { AreWhole parts }
        ensures setup { (program : ProgramText) → setup_in result program ≡ setup_of program parts.lay.t parts.limits }
        ensures is_for { (program : ProgramText) → lay_of parts.lay ≡ lay_in (setup_of program parts.lay.t parts.limits) → IsFor result program }
        ensures cluster { (code : List Instr) → cluster_in result code ≡ cluster_of parts code }
    {
        let Parts {
            lay,
            limits,
            words,
            machines,
        } = parts;
        State {
            lay,
            limits,
            words,
            machines,
        }
    }
}
