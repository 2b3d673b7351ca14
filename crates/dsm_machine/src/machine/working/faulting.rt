// Faults.
ghost use Rattle.std.specs.Prelude.{◌≡◌, ◌+◌, ◌*◌, ◌^◌, ◌<◌, ◌≤◌};
ghost use Rattle.dsm_words.specs.Place.{lay_of};
ghost use Rattle.dsm_protocol.specs.Steps.{wanted};
ghost use Rattle.dsm_machine.specs.Faults.{is_store};

use crate::any_phase::AnyPhase;
use crate::fault::FaultAt;
use crate::machine::Machine;
use crate::outcome::Outcome;
use crate::point::{Access, Next, Point};
use crate::write::WriteAt;
use dsm_clock::draw::Draw;
use dsm_clock::give::GiveTurn;
use dsm_clock::stamp::{Stamp, Which};
use dsm_clock::take::TakeTurn;
use dsm_directory::home::FindHome;
use dsm_directory::my_dir::MyDir;
use dsm_directory::register::Register;
use dsm_directory::row::Row;
use dsm_directory::sharers::Sharers;
use dsm_frames::mapping::SetMap;
use dsm_incoming::merge::Merge;
use dsm_incoming::overwrite::Overwrite;
use dsm_notice::stale::Stale;
use dsm_twin::has::HasTwin;

/// The mapping that allows an access.
fn allowing(access: Access) -> u8
    ensures value { result ≡ wanted (is_store access) }
    ensures most { result ≤ 3 }
{
    match access {
        Access::Load { d: _, w: _ } => 1,
        Access::Store { w: _, v: _ } => 2,
    }
}

impl Machine {
    ghost use Rattle.std.specs.Prelude.{true, false, not, ◌&&◌, if◌then◌else◌};
    ghost use Rattle.dsm_incoming.specs.Getting.{merge_rest, merge_lay, merge_script, overwrite_rest, overwrite_lay, overwrite_script};
    ghost use Rattle.dsm_protocol.specs.Own.{node_of, mapped, counted};
    ghost use Rattle.dsm_protocol.specs.Jobs.{Job};
    ghost use Rattle.dsm_protocol.specs.Steps.{page_of, store_job, faults, give_job, copy_job, updated_job, alone_job, soil_job, shared_job, share_job, ready_job};
    ghost use Rattle.dsm_protocol.specs.Steps.{look_round_job, sole_job, busy_job, leave_job};
    ghost use Rattle.dsm_protocol.specs.Processors.{settled};
    ghost use Rattle.dsm_machine.specs.Faults.{fault_next, fault_home, visited_node, address_of, register_of, page_at, made_job, round_job};
    ghost use Rattle.dsm_machine.specs.Machines.{who, own_of, seen, spare_of};
    ghost use Rattle.dsm_machine.specs.Results.{node_in};

    /// Its node has the page alone: the mapping is stored.
    pub(super) fn alone(&mut self, access: Access)
        requires register { register_of access < 16 }
        requires address { address_of access < self.old.lay.pages * self.old.lay.words }
        requires place { self.old.reader.place + 1 < 2 ^ 32 }
        requires done { self.old.reader.done + 1 < 2 ^ 64 }
        requires room { 0 < spare_of self.old }
        ensures who { who self.new ≡ who self.old }
        ensures seen { seen self.new ≡ settled (own_of self.old) (alone_job (who self.old) (is_store access) (page_at (who self.old) access) (made_job (who self.old) access)) }
        ensures trace { self.new.trace ≡ self.old.trace }
    {
        let g = self.page(access.address());
        let map = SetMap::new(self.lay, self.p, g, u64::from(allowing(access)));
        self.start(
            AnyPhase::SetMap(map),
            Next::Fault {
                access,
                at: FaultAt::AloneMapped,
            },
        );
    }

    /// Its node shares the page: the mapping is stored.
    pub(super) fn shared(&mut self, access: Access)
        requires register { register_of access < 16 }
        requires address { address_of access < self.old.lay.pages * self.old.lay.words }
        requires place { self.old.reader.place + 1 < 2 ^ 32 }
        requires done { self.old.reader.done + 1 < 2 ^ 64 }
        requires room { 0 < spare_of self.old }
        ensures who { who self.new ≡ who self.old }
        ensures seen { seen self.new ≡ settled (own_of self.old) (shared_job (who self.old) (is_store access) (page_at (who self.old) access) (made_job (who self.old) access)) }
        ensures trace { self.new.trace ≡ self.old.trace }
    {
        let g = self.page(access.address());
        let map = SetMap::new(self.lay, self.p, g, u64::from(allowing(access)));
        self.start(
            AnyPhase::SetMap(map),
            Next::Fault {
                access,
                at: FaultAt::SharedMapped,
            },
        );
    }

    /// The page is to be written: its twin is looked for.
    fn look_twin(&mut self, w: u32, v: u64)
        requires address { w < self.old.lay.pages * self.old.lay.words }
        requires place { self.old.reader.place + 1 < 2 ^ 32 }
        requires done { self.old.reader.done + 1 < 2 ^ 64 }
        requires room { 0 < spare_of self.old }
        ensures who { who self.new ≡ who self.old }
        ensures seen { seen self.new ≡ settled (own_of self.old) (ready_job (who self.old) true (page_of (who self.old) w) (store_job (who self.old) w v)) }
        ensures trace { self.new.trace ≡ self.old.trace }
    {
        let has = HasTwin::new(self.lay, self.node(), self.page(w));
        self.start(
            AnyPhase::HasTwin(has),
            Next::Write {
                w,
                v,
                at: WriteAt::TwinFound,
            },
        );
    }

    /// The copy is up to date: to write it needs a twin.
    pub(super) fn ready_to_share(&mut self, access: Access)
        requires register { register_of access < 16 }
        requires address { address_of access < self.old.lay.pages * self.old.lay.words }
        requires place { self.old.reader.place + 1 < 2 ^ 32 }
        requires done { self.old.reader.done + 1 < 2 ^ 64 }
        requires room { 0 < spare_of self.old }
        ensures who { who self.new ≡ who self.old }
        ensures seen { seen self.new ≡ settled (own_of self.old) (ready_job (who self.old) (is_store access) (page_at (who self.old) access) (made_job (who self.old) access)) }
        ensures trace { self.new.trace ≡ self.old.trace }
    {
        match access {
            Access::Load { d: _, w: _ } => self.shared(access),
            Access::Store { w, v } => self.look_twin(w, v),
        }
    }

    /// The page is shared: where its node is not its home `h`, the copy is brought up to date.
    pub(super) fn share(&mut self, access: Access, h: u32)
        requires register { register_of access < 16 }
        requires address { address_of access < self.old.lay.pages * self.old.lay.words }
        requires home { h < self.old.lay.t.nodes }
        requires place { self.old.reader.place + 1 < 2 ^ 32 }
        requires done { self.old.reader.done + 1 < 2 ^ 64 }
        requires room { 0 < spare_of self.old }
        ensures who { who self.new ≡ who self.old }
        ensures seen { seen self.new ≡ settled (own_of self.old) (share_job (who self.old) (is_store access) (page_at (who self.old) access) h (made_job (who self.old) access)) }
        ensures trace { self.new.trace ≡ self.old.trace }
    {
        if self.node() == h {
            self.shared(access);
            return;
        }
        let g = self.page(access.address());
        let stale = Stale::new(self.lay, self.node(), g);
        self.start(
            AnyPhase::Stale(stale),
            Next::Fault {
                access,
                at: FaultAt::Checked { h },
            },
        );
    }

    /// The turn of the page is taken: the own word of the directory is loaded.
    fn look_dir(&mut self, access: Access)
        requires register { register_of access < 16 }
        requires address { address_of access < self.old.lay.pages * self.old.lay.words }
        requires place { self.old.reader.place + 1 < 2 ^ 32 }
        requires done { self.old.reader.done + 1 < 2 ^ 64 }
        requires room { 0 < spare_of self.old }
        ensures who { who self.new ≡ who self.old }
        ensures seen { seen self.new ≡ settled (own_of self.old) (fault_next (who self.old) access FaultAt.Taken Outcome.Nothing) }
        ensures trace { self.new.trace ≡ self.old.trace }
    {
        let g = self.page(access.address());
        let dir = MyDir::new(self.lay, self.node(), g);
        self.start(
            AnyPhase::MyDir(dir),
            Next::Fault {
                access,
                at: FaultAt::Dir,
            },
        );
    }

    /// The own word is `d`: its node may have the page alone.
    fn dir_known(&mut self, access: Access, d: u64)
        requires register { register_of access < 16 }
        requires address { address_of access < self.old.lay.pages * self.old.lay.words }
        requires place { self.old.reader.place + 1 < 2 ^ 32 }
        requires done { self.old.reader.done + 1 < 2 ^ 64 }
        requires room { 0 < spare_of self.old }
        ensures who { who self.new ≡ who self.old }
        ensures seen { seen self.new ≡ settled (own_of self.old) (fault_next (who self.old) access FaultAt.Dir (Outcome.Number d)) }
        ensures trace { self.new.trace ≡ self.old.trace }
    {
        if d == 2 {
            self.alone(access);
            return;
        }
        let g = self.page(access.address());
        let home = FindHome::new(self.lay, self.node(), g);
        self.start(
            AnyPhase::FindHome(home),
            Next::Fault {
                access,
                at: FaultAt::Home { d },
            },
        );
    }

    /// The home is known: where the own word `d` is 0, its node registers.
    fn home_known(&mut self, access: Access, d: u64, h: u32)
        requires register { register_of access < 16 }
        requires address { address_of access < self.old.lay.pages * self.old.lay.words }
        requires home { h < self.old.lay.t.nodes }
        requires place { self.old.reader.place + 1 < 2 ^ 32 }
        requires done { self.old.reader.done + 1 < 2 ^ 64 }
        requires room { 0 < spare_of self.old }
        ensures who { who self.new ≡ who self.old }
        ensures seen { seen self.new ≡ settled (own_of self.old) (fault_next (who self.old) access (FaultAt.Home d) (Outcome.Node h)) }
        ensures trace { self.new.trace ≡ self.old.trace }
    {
        if d != 0 {
            self.look_round(access, h);
            return;
        }
        let g = self.page(access.address());
        let register = Register::new(self.lay, self.node(), g);
        self.start(
            AnyPhase::Register(register),
            Next::Fault {
                access,
                at: FaultAt::Registered { h },
            },
        );
    }

    /// The directory is read.
    fn look_round(&mut self, access: Access, h: u32)
        requires register { register_of access < 16 }
        requires address { address_of access < self.old.lay.pages * self.old.lay.words }
        requires home { h < self.old.lay.t.nodes }
        requires place { self.old.reader.place + 1 < 2 ^ 32 }
        requires done { self.old.reader.done + 1 < 2 ^ 64 }
        requires room { 0 < spare_of self.old }
        ensures who { who self.new ≡ who self.old }
        ensures seen { seen self.new ≡ settled (own_of self.old) (look_round_job (who self.old) (is_store access) (page_at (who self.old) access) h (made_job (who self.old) access)) }
        ensures trace { self.new.trace ≡ self.old.trace }
    {
        let g = self.page(access.address());
        let sharers = Sharers::new(self.lay, self.node(), g);
        self.start(
            AnyPhase::Sharers(sharers),
            Next::Fault {
                access,
                at: FaultAt::Looked { h },
            },
        );
    }

    /// What the directory says decides.
    fn decide(&mut self, access: Access, h: u32, row: Row)
        requires register { register_of access < 16 }
        requires address { address_of access < self.old.lay.pages * self.old.lay.words }
        requires home { h < self.old.lay.t.nodes }
        requires place { self.old.reader.place + 1 < 2 ^ 32 }
        requires done { self.old.reader.done + 1 < 2 ^ 64 }
        requires room { 0 < spare_of self.old }
        ensures who { who self.new ≡ who self.old }
        ensures seen { seen self.new ≡ settled (own_of self.old) (fault_next (who self.old) access (FaultAt.Looked h) (Outcome.Row row)) }
        ensures trace { self.new.trace ≡ self.old.trace }
    {
        if row.busy == 0 {
            self.settle(access, h, row.others);
            return;
        }
        self.want(access, h, row.busy);
    }

    /// No node is busy: a store whose node is the only one may have the page alone.
    fn settle(&mut self, access: Access, h: u32, others: bool)
        requires register { register_of access < 16 }
        requires address { address_of access < self.old.lay.pages * self.old.lay.words }
        requires home { h < self.old.lay.t.nodes }
        requires place { self.old.reader.place + 1 < 2 ^ 32 }
        requires done { self.old.reader.done + 1 < 2 ^ 64 }
        requires room { 0 < spare_of self.old }
        ensures who { who self.new ≡ who self.old }
        ensures seen { seen self.new ≡ settled (own_of self.old) (if is_store access && not others then sole_job (who self.old) (page_at (who self.old) access) h (made_job (who self.old) access) else share_job (who self.old) (is_store access) (page_at (who self.old) access) h (made_job (who self.old) access)) }
        ensures trace { self.new.trace ≡ self.old.trace }
    {
        if others {
            self.share(access, h);
            return;
        }
        self.unshared(access, h);
    }

    /// No other node uses the page: to write it, its node may have it alone.
    fn unshared(&mut self, access: Access, h: u32)
        requires register { register_of access < 16 }
        requires address { address_of access < self.old.lay.pages * self.old.lay.words }
        requires home { h < self.old.lay.t.nodes }
        requires place { self.old.reader.place + 1 < 2 ^ 32 }
        requires done { self.old.reader.done + 1 < 2 ^ 64 }
        requires room { 0 < spare_of self.old }
        ensures who { who self.new ≡ who self.old }
        ensures seen { seen self.new ≡ settled (own_of self.old) (if is_store access then sole_job (who self.old) (page_at (who self.old) access) h (made_job (who self.old) access) else share_job (who self.old) (is_store access) (page_at (who self.old) access) h (made_job (who self.old) access)) }
        ensures trace { self.new.trace ≡ self.old.trace }
    {
        match access {
            Access::Load { d: _, w: _ } => self.share(access, h),
            Access::Store { w, v } => self.look_sole(w, v, h),
        }
    }

    /// Some nodes are busy: where it has no mapping, it stores a wanted one.
    fn want(&mut self, access: Access, h: u32, busy: u32)
        requires register { register_of access < 16 }
        requires address { address_of access < self.old.lay.pages * self.old.lay.words }
        requires home { h < self.old.lay.t.nodes }
        requires place { self.old.reader.place + 1 < 2 ^ 32 }
        requires done { self.old.reader.done + 1 < 2 ^ 64 }
        requires room { 0 < spare_of self.old }
        ensures who { who self.new ≡ who self.old }
        ensures seen { seen self.new ≡ settled (own_of self.old) (busy_job (who self.old) (is_store access) (page_at (who self.old) access) h busy (made_job (who self.old) access)) }
        ensures trace { self.new.trace ≡ self.old.trace }
    {
        let g = self.page(access.address());
        if self.maps[g as usize] != 0 {
            self.leave(access, h, busy);
            return;
        }
        let map = SetMap::new(self.lay, self.p, g, 3);
        self.start(
            AnyPhase::SetMap(map),
            Next::Fault {
                access,
                at: FaultAt::Wanted { h, busy },
            },
        );
    }

    /// Its mapping is a wanted one.
    fn wanting(&mut self, access: Access, h: u32, busy: u32)
        requires register { register_of access < 16 }
        requires address { address_of access < self.old.lay.pages * self.old.lay.words }
        requires home { h < self.old.lay.t.nodes }
        requires place { self.old.reader.place + 1 < 2 ^ 32 }
        requires done { self.old.reader.done + 1 < 2 ^ 64 }
        requires room { 0 < spare_of self.old }
        ensures who { who self.new ≡ who self.old }
        ensures seen { seen self.new ≡ settled (own_of self.old) (fault_next (who self.old) access (FaultAt.Wanted h busy) Outcome.Nothing) }
        ensures trace { self.new.trace ≡ self.old.trace }
    {
        let g = self.page(access.address());
        self.maps[g as usize] = 3;
        self.leave(access, h, busy);
    }

    /// The turn is given back for the visits.
    fn leave(&mut self, access: Access, h: u32, busy: u32)
        requires register { register_of access < 16 }
        requires address { address_of access < self.old.lay.pages * self.old.lay.words }
        requires home { h < self.old.lay.t.nodes }
        requires place { self.old.reader.place + 1 < 2 ^ 32 }
        requires done { self.old.reader.done + 1 < 2 ^ 64 }
        requires room { 0 < spare_of self.old }
        ensures who { who self.new ≡ who self.old }
        ensures seen { seen self.new ≡ settled (own_of self.old) (leave_job (who self.old) (is_store access) (page_at (who self.old) access) h busy (made_job (who self.old) access)) }
        ensures trace { self.new.trace ≡ self.old.trace }
    {
        let g = self.page(access.address());
        let give = GiveTurn::page(self.lay, self.node(), g);
        self.start(
            AnyPhase::Give(give),
            Next::Fault {
                access,
                at: FaultAt::Left { h, busy },
            },
        );
    }

    /// All visits are made: the turn is taken again.
    pub(super) fn retake(&mut self, access: Access, h: u32)
        requires register { register_of access < 16 }
        requires address { address_of access < self.old.lay.pages * self.old.lay.words }
        requires home { h < self.old.lay.t.nodes }
        requires place { self.old.reader.place + 1 < 2 ^ 32 }
        requires done { self.old.reader.done + 1 < 2 ^ 64 }
        requires room { 0 < spare_of self.old }
        ensures who { who self.new ≡ who self.old }
        ensures seen { seen self.new ≡ settled (own_of self.old) (round_job (who self.old) access h) }
        ensures trace { self.new.trace ≡ self.old.trace }
    {
        let g = self.page(access.address());
        let take = TakeTurn::page(self.lay, self.node(), g, self.p);
        self.start(
            AnyPhase::Take(take),
            Next::Fault {
                access,
                at: FaultAt::Retaken { h },
            },
        );
    }

    /// The own word is loaded again.
    fn look_again(&mut self, access: Access, h: u32)
        requires register { register_of access < 16 }
        requires address { address_of access < self.old.lay.pages * self.old.lay.words }
        requires home { h < self.old.lay.t.nodes }
        requires place { self.old.reader.place + 1 < 2 ^ 32 }
        requires done { self.old.reader.done + 1 < 2 ^ 64 }
        requires room { 0 < spare_of self.old }
        ensures who { who self.new ≡ who self.old }
        ensures seen { seen self.new ≡ settled (own_of self.old) (fault_next (who self.old) access (FaultAt.Retaken h) Outcome.Nothing) }
        ensures trace { self.new.trace ≡ self.old.trace }
    {
        let g = self.page(access.address());
        let dir = MyDir::new(self.lay, self.node(), g);
        self.start(
            AnyPhase::MyDir(dir),
            Next::Fault {
                access,
                at: FaultAt::Redir { h },
            },
        );
    }

    /// The own word is now `d`.
    fn dir_again(&mut self, access: Access, h: u32, d: u64)
        requires register { register_of access < 16 }
        requires address { address_of access < self.old.lay.pages * self.old.lay.words }
        requires home { h < self.old.lay.t.nodes }
        requires place { self.old.reader.place + 1 < 2 ^ 32 }
        requires done { self.old.reader.done + 1 < 2 ^ 64 }
        requires room { 0 < spare_of self.old }
        ensures who { who self.new ≡ who self.old }
        ensures seen { seen self.new ≡ settled (own_of self.old) (fault_next (who self.old) access (FaultAt.Redir h) (Outcome.Number d)) }
        ensures trace { self.new.trace ≡ self.old.trace }
    {
        if d == 2 {
            self.alone(access);
            return;
        }
        self.share(access, h);
    }

    /// Whether the copy is out of date is known: then it is fetched.
    fn checked(&mut self, access: Access, h: u32, stale: bool)
        requires register { register_of access < 16 }
        requires address { address_of access < self.old.lay.pages * self.old.lay.words }
        requires home { h < self.old.lay.t.nodes }
        requires place { self.old.reader.place + 1 < 2 ^ 32 }
        requires done { self.old.reader.done + 1 < 2 ^ 64 }
        requires room { 0 < spare_of self.old }
        ensures who { who self.new ≡ who self.old }
        ensures seen { seen self.new ≡ settled (own_of self.old) (fault_next (who self.old) access (FaultAt.Checked h) (Outcome.Whether stale)) }
        ensures trace { self.new.trace ≡ self.old.trace }
    {
        if !stale {
            self.ready_to_share(access);
            return;
        }
        let draw = Draw::new(self.lay, self.node());
        self.start(
            AnyPhase::Draw(draw),
            Next::Fault {
                access,
                at: FaultAt::FetchDrawn { h },
            },
        );
    }

    /// The time of the fetch is `t`: the twin is looked for.
    fn fetch_at(&mut self, access: Access, h: u32, t: u64)
        requires register { register_of access < 16 }
        requires address { address_of access < self.old.lay.pages * self.old.lay.words }
        requires home { h < self.old.lay.t.nodes }
        requires place { self.old.reader.place + 1 < 2 ^ 32 }
        requires done { self.old.reader.done + 1 < 2 ^ 64 }
        requires room { 0 < spare_of self.old }
        ensures who { who self.new ≡ who self.old }
        ensures seen { seen self.new ≡ settled (own_of self.old) (fault_next (who self.old) access (FaultAt.FetchDrawn h) (Outcome.Number t)) }
        ensures trace { self.new.trace ≡ self.old.trace }
    {
        let g = self.page(access.address());
        let has = HasTwin::new(self.lay, self.node(), g);
        self.start(
            AnyPhase::HasTwin(has),
            Next::Fault {
                access,
                at: FaultAt::FetchTwin { h, t },
            },
        );
    }

    /// Where there is a twin, the home's words are merged, and else they overwrite the frame.
    fn fetch(&mut self, access: Access, h: u32, t: u64, twin: bool)
        requires register { register_of access < 16 }
        requires address { address_of access < self.old.lay.pages * self.old.lay.words }
        requires home { h < self.old.lay.t.nodes }
        requires place { self.old.reader.place + 1 < 2 ^ 32 }
        requires done { self.old.reader.done + 1 < 2 ^ 64 }
        requires room { 0 < spare_of self.old }
        ensures who { who self.new ≡ who self.old }
        ensures seen { seen self.new ≡ settled (own_of self.old) (fault_next (who self.old) access (FaultAt.FetchTwin h t) (Outcome.Whether twin)) }
        ensures trace { self.new.trace ≡ self.old.trace }
    {
        if twin {
            self.merge(access, h, t);
            return;
        }
        self.overwrite(access, h, t);
    }

    /// Page `g`, whose home is `h`, is to be merged.
    fn merge_from(&self, g: u32, h: u32) -> Merge
        requires page { g < self.now.lay.pages }
        requires home { h < self.now.lay.t.nodes }
        ensures rest { merge_rest result ≡ merge_script (lay_of self.now.lay) (node_of (who self.now)) g h }
        ensures lay { merge_lay result ≡ lay_of self.now.lay }
    {
        Merge::new(self.lay.with_home(g, h), self.node(), g)
    }

    /// The home's words are merged.
    fn merge(&mut self, access: Access, h: u32, t: u64)
        requires register { register_of access < 16 }
        requires address { address_of access < self.old.lay.pages * self.old.lay.words }
        requires home { h < self.old.lay.t.nodes }
        requires place { self.old.reader.place + 1 < 2 ^ 32 }
        requires done { self.old.reader.done + 1 < 2 ^ 64 }
        requires room { 0 < spare_of self.old }
        ensures who { who self.new ≡ who self.old }
        ensures seen { seen self.new ≡ settled (own_of self.old) (copy_job (who self.old) (page_at (who self.old) access) h true (updated_job (who self.old) (page_at (who self.old) access) t (ready_job (who self.old) (is_store access) (page_at (who self.old) access) (made_job (who self.old) access)))) }
        ensures trace { self.new.trace ≡ self.old.trace }
    {
        let g = self.page(access.address());
        let merge = self.merge_from(g, h);
        self.start(
            AnyPhase::OpenMerge {
                n: self.node(),
                g,
                merge,
            },
            Next::Fault {
                access,
                at: FaultAt::FetchCopied { t, merged: true },
            },
        );
    }

    /// Page `g`, whose home is `h`, is to be overwritten.
    pub(super) fn overwrite_from(&self, g: u32, h: u32) -> Overwrite
        requires page { g < self.now.lay.pages }
        requires home { h < self.now.lay.t.nodes }
        ensures rest { overwrite_rest result ≡ overwrite_script (lay_of self.now.lay) (node_of (who self.now)) g h }
        ensures lay { overwrite_lay result ≡ lay_of self.now.lay }
    {
        Overwrite::new(self.lay.with_home(g, h), self.node(), g)
    }

    /// The home's words overwrite the frame.
    fn overwrite(&mut self, access: Access, h: u32, t: u64)
        requires register { register_of access < 16 }
        requires address { address_of access < self.old.lay.pages * self.old.lay.words }
        requires home { h < self.old.lay.t.nodes }
        requires place { self.old.reader.place + 1 < 2 ^ 32 }
        requires done { self.old.reader.done + 1 < 2 ^ 64 }
        requires room { 0 < spare_of self.old }
        ensures who { who self.new ≡ who self.old }
        ensures seen { seen self.new ≡ settled (own_of self.old) (copy_job (who self.old) (page_at (who self.old) access) h false (updated_job (who self.old) (page_at (who self.old) access) t (ready_job (who self.old) (is_store access) (page_at (who self.old) access) (made_job (who self.old) access)))) }
        ensures trace { self.new.trace ≡ self.old.trace }
    {
        let g = self.page(access.address());
        let overwrite = self.overwrite_from(g, h);
        self.start(
            AnyPhase::OpenOverwrite {
                n: self.node(),
                g,
                overwrite,
            },
            Next::Fault {
                access,
                at: FaultAt::FetchCopied { t, merged: false },
            },
        );
    }

    /// The page was fetched: the time is noted.
    fn fetched(&mut self, access: Access, t: u64, merged: bool)
        requires register { register_of access < 16 }
        requires address { address_of access < self.old.lay.pages * self.old.lay.words }
        requires place { self.old.reader.place + 1 < 2 ^ 32 }
        requires done { self.old.reader.done + 1 < 2 ^ 64 }
        requires room { 0 < spare_of self.old }
        ensures who { who self.new ≡ who self.old }
        ensures seen { seen self.new ≡ settled (own_of self.old) (fault_next (who self.old) access (FaultAt.FetchCopied t merged) Outcome.Nothing) }
        ensures trace { self.new.trace ≡ self.old.trace }
    {
        if merged {
            self.counts.merges = self.counts.merges.wrapping_add(1);
        } else {
            self.counts.overwrites = self.counts.overwrites.wrapping_add(1);
        }
        self.stamp(access, t);
    }

    /// The time of the fetch is noted.
    fn stamp(&mut self, access: Access, t: u64)
        requires register { register_of access < 16 }
        requires address { address_of access < self.old.lay.pages * self.old.lay.words }
        requires place { self.old.reader.place + 1 < 2 ^ 32 }
        requires done { self.old.reader.done + 1 < 2 ^ 64 }
        requires room { 0 < spare_of self.old }
        ensures who { who self.new ≡ who self.old }
        ensures seen { seen self.new ≡ settled (own_of self.old) (updated_job (who self.old) (page_at (who self.old) access) t (ready_job (who self.old) (is_store access) (page_at (who self.old) access) (made_job (who self.old) access))) }
        ensures trace { self.new.trace ≡ self.old.trace }
    {
        let g = self.page(access.address());
        let stamp = Stamp::new(self.lay, Which::Update, self.node(), g, t);
        self.start(
            AnyPhase::Stamp(stamp),
            Next::Fault {
                access,
                at: FaultAt::FetchStamped,
            },
        );
    }

    /// Its node has the page alone, and it may use it.
    fn alone_mapped(&mut self, access: Access)
        requires register { register_of access < 16 }
        requires address { address_of access < self.old.lay.pages * self.old.lay.words }
        requires place { self.old.reader.place + 1 < 2 ^ 32 }
        requires done { self.old.reader.done + 1 < 2 ^ 64 }
        requires room { 0 < spare_of self.old }
        ensures who { who self.new ≡ who self.old }
        ensures seen { seen self.new ≡ settled (own_of self.old) (fault_next (who self.old) access FaultAt.AloneMapped Outcome.Nothing) }
        ensures trace { self.new.trace ≡ self.old.trace }
    {
        self.allow(access);
        self.give_back(access);
    }

    /// Its node shares the page, and it may use it: one that may be written is dirty.
    fn shared_mapped(&mut self, access: Access)
        requires register { register_of access < 16 }
        requires address { address_of access < self.old.lay.pages * self.old.lay.words }
        requires place { self.old.reader.place + 1 < 2 ^ 32 }
        requires done { self.old.reader.done + 1 < 2 ^ 64 }
        requires room { 0 < spare_of self.old }
        ensures who { who self.new ≡ who self.old }
        ensures seen { seen self.new ≡ settled (own_of self.old) (fault_next (who self.old) access FaultAt.SharedMapped Outcome.Nothing) }
        ensures trace { self.new.trace ≡ self.old.trace }
    {
        self.allow(access);
        self.soil_for(access);
        self.give_back(access);
    }

    /// The turn is given back.
    fn give_back(&mut self, access: Access)
        requires register { register_of access < 16 }
        requires address { address_of access < self.old.lay.pages * self.old.lay.words }
        requires place { self.old.reader.place + 1 < 2 ^ 32 }
        requires done { self.old.reader.done + 1 < 2 ^ 64 }
        requires room { 0 < spare_of self.old }
        ensures who { who self.new ≡ who self.old }
        ensures seen { seen self.new ≡ settled (own_of self.old) (give_job (node_of (who self.old)) (page_at (who self.old) access) (made_job (who self.old) access)) }
        ensures trace { self.new.trace ≡ self.old.trace }
    {
        let g = self.page(access.address());
        let give = GiveTurn::page(self.lay, self.node(), g);
        self.start(
            AnyPhase::Give(give),
            Next::Fault {
                access,
                at: FaultAt::Given,
            },
        );
    }

    /// Its mapping allows the access, and the fault is counted.
    fn allow(&mut self, access: Access)
        requires address { address_of access < self.old.lay.pages * self.old.lay.words }
        ensures who { who self.new ≡ who self.old }
        ensures own { own_of self.new ≡ counted (mapped (own_of self.old) (page_at (who self.old) access) (wanted (is_store access))) (faults (is_store access)) }
        ensures layout { self.new.lay ≡ self.old.lay }
        ensures reader { self.new.reader ≡ self.old.reader }
        ensures trace { self.new.trace ≡ self.old.trace }
    {
        let g = self.page(access.address());
        self.maps[g as usize] = allowing(access);
        match access {
            Access::Load { d: _, w: _ } => {
                self.counts.read_faults = self.counts.read_faults.wrapping_add(1);
            }
            Access::Store { w: _, v: _ } => {
                self.counts.write_faults = self.counts.write_faults.wrapping_add(1);
            }
        }
    }

    /// A page that may be written is dirty.
    fn soil_for(&mut self, access: Access)
        requires address { address_of access < self.old.lay.pages * self.old.lay.words }
        ensures who { who self.new ≡ who self.old }
        ensures own { (rest : Job) → settled (own_of self.old) (soil_job (is_store access) (page_at (who self.old) access) rest) ≡ settled (own_of self.new) rest }
        ensures layout { self.new.lay ≡ self.old.lay }
        ensures reader { self.new.reader ≡ self.old.reader }
        ensures trace { self.new.trace ≡ self.old.trace }
    {
        if let Access::Store { w, v: _ } = access {
            let g = self.page(w);
            self.soil(g);
        }
    }

    /// The turn is given back: the access comes.
    fn make_access(&mut self, access: Access)
        requires register { register_of access < 16 }
        requires address { address_of access < self.old.lay.pages * self.old.lay.words }
        requires place { self.old.reader.place + 1 < 2 ^ 32 }
        requires done { self.old.reader.done + 1 < 2 ^ 64 }
        requires room { 0 < spare_of self.old }
        ensures who { who self.new ≡ who self.old }
        ensures seen { seen self.new ≡ settled (own_of self.old) (made_job (who self.old) access) }
        ensures trace { self.new.trace ≡ self.old.trace }
    {
        self.point = Point::Accessing { access };
    }

    /// No other node uses the page: it can be had alone where there is no twin.
    fn look_sole(&mut self, w: u32, v: u64, h: u32)
        requires address { w < self.old.lay.pages * self.old.lay.words }
        requires home { h < self.old.lay.t.nodes }
        requires place { self.old.reader.place + 1 < 2 ^ 32 }
        requires done { self.old.reader.done + 1 < 2 ^ 64 }
        requires room { 0 < spare_of self.old }
        ensures who { who self.new ≡ who self.old }
        ensures seen { seen self.new ≡ settled (own_of self.old) (sole_job (who self.old) (page_of (who self.old) w) h (store_job (who self.old) w v)) }
        ensures trace { self.new.trace ≡ self.old.trace }
    {
        let has = HasTwin::new(self.lay, self.node(), self.page(w));
        self.start(
            AnyPhase::HasTwin(has),
            Next::Write {
                w,
                v,
                at: WriteAt::Sole { h },
            },
        );
    }

    /// Takes the result of a phase of a fault.
    pub(super) fn fault_on(&mut self, access: Access, at: FaultAt, out: Outcome)
        requires register { register_of access < 16 }
        requires address { address_of access < self.old.lay.pages * self.old.lay.words }
        requires home { fault_home at < self.old.lay.t.nodes }
        requires node { visited_node at < self.old.lay.t.nodes }
        requires found { node_in out < self.old.lay.t.nodes }
        requires place { self.old.reader.place + 1 < 2 ^ 32 }
        requires done { self.old.reader.done + 1 < 2 ^ 64 }
        requires room { 0 < spare_of self.old }
        ensures who { who self.new ≡ who self.old }
        ensures seen { seen self.new ≡ settled (own_of self.old) (fault_next (who self.old) access at out) }
        ensures trace { self.new.trace ≡ self.old.trace }
    {
        match at {
            FaultAt::Taken => self.look_dir(access),
            FaultAt::Dir => self.dir_known(access, out.number()),
            FaultAt::Home { d } => self.home_known(access, d, out.node()),
            FaultAt::Registered { h } => self.look_round(access, h),
            FaultAt::Looked { h } => self.decide(access, h, out.row()),
            FaultAt::Wanted { h, busy } => self.wanting(access, h, busy),
            FaultAt::Left { h, busy } => self.visit_all(access, h, busy),
            FaultAt::VisitTaken { h, busy, m } => self.look_visited(access, h, busy, m),
            FaultAt::VisitDir { h, busy, m } => self.visited_dir(access, h, busy, m, out.number()),
            FaultAt::VisitBroken { h, busy, m } => self.visit_broken(access, h, busy, m),
            FaultAt::VisitGiven { h, busy, m } => self.visit(access, h, busy, m + 1),
            FaultAt::Retaken { h } => self.look_again(access, h),
            FaultAt::Redir { h } => self.dir_again(access, h, out.number()),
            FaultAt::Checked { h } => self.checked(access, h, out.whether()),
            FaultAt::FetchDrawn { h } => self.fetch_at(access, h, out.number()),
            FaultAt::FetchTwin { h, t } => self.fetch(access, h, t, out.whether()),
            FaultAt::FetchCopied { t, merged } => self.fetched(access, t, merged),
            FaultAt::FetchStamped => self.ready_to_share(access),
            FaultAt::AloneMapped => self.alone_mapped(access),
            FaultAt::SharedMapped => self.shared_mapped(access),
            FaultAt::Given => self.make_access(access),
        }
    }
}
