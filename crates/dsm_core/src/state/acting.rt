// One event of one machine.
ghost use Rattle.std.specs.Prelude.{◌≡◌, ◌+◌, ◌≤◌, None, List, IsTrue, length};
ghost use Rattle.dsm_isa.specs.declared.instr.Instr.{Instr};
ghost use Rattle.dsm_isa.specs.Rules.{ObjectsInside};
ghost use Rattle.dsm_words.specs.Place.{total};
ghost use Rattle.dsm_words.specs.Words.{done, reply};
ghost use Rattle.dsm_protocol.specs.Jobs.{first_act, held_turn};
ghost use Rattle.dsm_protocol.specs.Processors.{ending, after_answer, wanting as wanting_if};
ghost use Rattle.dsm_protocol.specs.Own.{sizes_in};
ghost use Rattle.dsm_machine.specs.Machines.{who, seen, processor_in, spare_of, HasRoom};

use dsm_isa::code::Code;
use dsm_machine::machine::Machine;
use dsm_words::op::apply;

/// The machine's next operation is found, and room is made for the entry of its next event. Where there is no memory for
/// that, the machine starves, which is answered by true.
pub fn starves(machine: &mut Machine, code: &Code) -> bool
    requires objects { ObjectsInside (sizes_in (who machine.old).lay) code.now }
    requires runs { ending (processor_in machine.old code.now) ≡ None }
    ensures who { who machine.new ≡ who machine.old }
    ensures wanting { processor_in machine.new code.now ≡ wanting_if (who machine.old) result (processor_in machine.old code.now) }
    ensures full { IsTrue result → spare_of machine.old ≡ 0 }
    ensures turn { IsTrue result → held_turn (processor_in machine.old code.now).todo ≡ None }
    ensures runs { ending (seen machine.new) ≡ None }
    ensures room { HasRoom machine.new }
    ensures kept { spare_of machine.old ≤ spare_of machine.new }
{
    machine.begin(code);
    wants(machine)
}

/// Makes room for the entry of the machine's next event; without memory for it, the machine starves.
fn wants(machine: &mut Machine) -> bool
    requires { ending (seen machine.old) ≡ None }
    ensures who { who machine.new ≡ who machine.old }
    ensures wanting { (code : List Instr) → processor_in machine.new code ≡ wanting_if (who machine.old) result (processor_in machine.old code) }
    ensures full { IsTrue result → spare_of machine.old ≡ 0 }
    ensures turn { IsTrue result → held_turn (seen machine.old).todo ≡ None }
    ensures runs { ending (seen machine.new) ≡ None }
    ensures room { HasRoom machine.new }
    ensures kept { spare_of machine.old ≤ spare_of machine.new }
{
    if machine.ready().is_ok() {
        return false;
    }
    machine.starve();
    true
}

/// The machine makes its next operation on the words, and takes the answer.
pub(crate) fn act(words: &mut [u64], machine: &mut Machine, code: &Code)
    requires words { length words.old ≡ total (who machine.old).lay }
    requires objects { ObjectsInside (sizes_in (who machine.old).lay) code.now }
    requires runs { ending (seen machine.old) ≡ None }
    requires room { HasRoom machine.old }
    ensures who { who machine.new ≡ who machine.old }
    ensures words { words.new ≡ done (who machine.old).lay words.old (first_act (processor_in machine.old code.now).todo) }
    ensures event { processor_in machine.new code.now ≡ after_answer (who machine.old) code.now (processor_in machine.old code.now) (reply (who machine.old).lay words.old (first_act (processor_in machine.old code.now).todo)) }
    ensures spends { spare_of machine.old ≤ spare_of machine.new + 1 }
{
    let Some(op) = machine.next(code) else {
        unreachable!()
    };
    let got = apply(words, op);
    machine.after(code, got);
}
