// Room for the entries of events to come.
ghost use Rattle.std.specs.Prelude.{◌≡◌, ◌≤◌, List, All, OnOk, IsOk, map};
ghost use Rattle.std.specs.List.{AllZip};
ghost use Rattle.dsm_isa.specs.ProgramText.{ProgramText};
ghost use Rattle.dsm_isa.specs.declared.instr.Instr.{Instr};
ghost use Rattle.dsm_machine.specs.Machines.{who, processor_in, spare_of};

use super::State;
use dsm_entry::entry::NoMemory;
use dsm_machine::machine::Machine;

impl State {
    ghost use Rattle.dsm_core.specs.Room.{rooms, HasRoomFor, KeepsRoom};
    ghost use Rattle.dsm_core.specs.States.{setup_in, cluster_in, IsFor};

    /// Makes room for `count` entries of each processor, so that none wants memory in so many events. Where there is room
    /// for so many already, it takes no memory; where memory is not got, some processors may have more room than before.
    pub fn ready(&mut self, count: u64) -> Result<(), NoMemory>
        // Nothing is changed but room,
        ensures setup { (program : ProgramText) → setup_in self.new program ≡ setup_in self.old program }
        ensures is_for { (program : ProgramText) → IsFor self.old program → IsFor self.new program }
        ensures same { (code : List Instr) → cluster_in self.new code ≡ cluster_in self.old code }
        // of which there is then enough,
        ensures ok { OnOk result (HasRoomFor self.new count) }
        // and never less than there was.
        ensures kept { KeepsRoom self.old self.new }
        ensures room { HasRoomFor self.old count → IsOk result }
        ensures spare { HasRoomFor self.old count → rooms self.new ≡ rooms self.old }
    {
        ready_all(&mut self.machines, count)
    }
}

/// Makes room for `count` entries of each of these machines.
fn ready_all(machines: &mut [Machine], count: u64) -> Result<(), NoMemory>
    ensures who { map who machines.new ≡ map who machines.old }
    ensures same { (code : List Instr) → map (λ m. processor_in m code) machines.new ≡ map (λ m. processor_in m code) machines.old }
    ensures ok { OnOk result (All (λ room. count ≤ room) (map spare_of machines.new)) }
    ensures kept { AllZip (λ had has. had ≤ has) (map spare_of machines.old) (map spare_of machines.new) }
    ensures room { All (λ room. count ≤ room) (map spare_of machines.old) → IsOk result }
    ensures spare { All (λ room. count ≤ room) (map spare_of machines.old) → map spare_of machines.new ≡ map spare_of machines.old }
{
    for machine in machines.iter_mut() {
        machine.ready_for(count)?;
    }
    Ok(())
}
