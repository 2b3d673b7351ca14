// All phases as one.
ghost use Rattle.std.specs.Prelude.{◌≡◌, ◌<◌, ℕ, true, Some};
ghost use Rattle.dsm_words.specs.Op.{place_of};
ghost use Rattle.dsm_words.specs.Place.{total};
ghost use Rattle.dsm_words.specs.Script.{op_of};
ghost use Rattle.dsm_words.specs.declared.turn.Turn.TheVariants.{More, Done};
ghost use Rattle.dsm_machine.specs.Phases.{told};

use crate::outcome::Outcome;
use dsm_clock::draw::Draw;
use dsm_clock::give::GiveTurn;
use dsm_clock::stamp::Stamp;
use dsm_clock::take::TakeTurn;
use dsm_directory::claim::Claim;
use dsm_directory::holder::Holder;
use dsm_directory::home::FindHome;
use dsm_directory::leave::Leave;
use dsm_directory::my_dir::MyDir;
use dsm_directory::register::Register;
use dsm_directory::row::Row;
use dsm_directory::sharers::Sharers;
use dsm_directory::withdraw::Withdraw;
use dsm_exclusive::breaking::Break;
use dsm_exclusive::enter::Enter;
use dsm_exclusive::nle::TakeNle;
use dsm_frames::mapping::SetMap;
use dsm_incoming::merge::Merge;
use dsm_incoming::overwrite::Overwrite;
use dsm_notice::drain::Drain;
use dsm_notice::own::TakeOwn;
use dsm_notice::post::Post;
use dsm_notice::stale::Stale;
use dsm_outgoing::flush::Flush;
use dsm_outgoing::last::LastFlush;
use dsm_sync::arrive::Arrive;
use dsm_sync::got::Got;
use dsm_sync::lock::LockTry;
use dsm_sync::look::Look;
use dsm_sync::set::SetFlag;
use dsm_sync::unlock::Unlock;
use dsm_twin::drop::DropTwin;
use dsm_twin::has::HasTwin;
use dsm_twin::make::MakeTwin;
use dsm_words::op::Op;
use dsm_words::phase::Phase;
use dsm_words::turn::Turn;

/// A phase of the protocol under way.
#[derive(Clone, Copy)]
pub enum AnyPhase {
    Draw(Draw),
    Stamp(Stamp),
    Take(TakeTurn),
    Give(GiveTurn),
    SetMap(SetMap),
    Sharers(Sharers),
    MyDir(MyDir),
    Holder(Holder),
    Register(Register),
    Claim(Claim),
    Withdraw(Withdraw),
    FindHome(FindHome),
    Leave(Leave),
    HasTwin(HasTwin),
    MakeTwin(MakeTwin),
    DropTwin(DropTwin),
    Post(Post),
    Drain(Drain),
    TakeOwn(TakeOwn),
    Stale(Stale),
    LastFlush(LastFlush),
    Flush(Flush),
    /// Before its first operation, with which node `n` begins to fetch page `g`.
    OpenMerge {
        n: u32,
        g: u32,
        merge: Merge,
    },
    Merge(Merge),
    /// The same.
    OpenOverwrite {
        n: u32,
        g: u32,
        overwrite: Overwrite,
    },
    Overwrite(Overwrite),
    Enter(Enter),
    Break(Break),
    TakeNle(TakeNle),
    Lock(LockTry),
    Look(Look),
    Unlock(Unlock),
    Arrive(Arrive),
    SetFlag(SetFlag),
}

const _: () = prove!(size_of::<AnyPhase>() <= 136);

impl AnyPhase {
    ghost use Rattle.dsm_protocol.specs.Own.{Own};
    ghost use Rattle.dsm_protocol.specs.Jobs.{Job, first_act, job_after};
    ghost use Rattle.dsm_protocol.specs.Processors.{settled};
    ghost use Rattle.dsm_machine.specs.Phases.{phase_job, phase_open, phase_lay, posts, noted, turned};
    ghost use Rattle.dsm_machine.specs.declared.outcome.Outcome.{Outcome as outcome};

    /// Its next operation.
    #[tactic(auto, using(crate::proofs::Calling::first_acts))]
    pub fn next(&self) -> Op
        requires { phase_open self.now ≡ true }
        ensures op { (f : outcome → Job) → result ≡ op_of (phase_lay self.now) (first_act (phase_job self.now f)) }
        ensures within { place_of result < total (phase_lay self.now) }
    {
        match self {
            AnyPhase::Draw(x) => x.next(),
            AnyPhase::Stamp(x) => x.next(),
            AnyPhase::Take(x) => x.next(),
            AnyPhase::Give(x) => x.next(),
            AnyPhase::SetMap(x) => x.next(),
            AnyPhase::Sharers(x) => x.next(),
            AnyPhase::MyDir(x) => x.next(),
            AnyPhase::Holder(x) => x.next(),
            AnyPhase::Register(x) => x.next(),
            AnyPhase::Claim(x) => x.next(),
            AnyPhase::Withdraw(x) => x.next(),
            AnyPhase::FindHome(x) => x.next(),
            AnyPhase::Leave(x) => x.next(),
            AnyPhase::HasTwin(x) => x.next(),
            AnyPhase::MakeTwin(x) => x.next(),
            AnyPhase::DropTwin(x) => x.next(),
            AnyPhase::Post(x) => x.next(),
            AnyPhase::Drain(x) => x.next(),
            AnyPhase::TakeOwn(x) => x.next(),
            AnyPhase::Stale(x) => x.next(),
            AnyPhase::LastFlush(x) => x.next(),
            AnyPhase::Flush(x) => x.next(),
            AnyPhase::OpenMerge { n: _, g: _, merge } => merge.next(),
            AnyPhase::Merge(x) => x.next(),
            AnyPhase::OpenOverwrite {
                n: _,
                g: _,
                overwrite,
            } => overwrite.next(),
            AnyPhase::Overwrite(x) => x.next(),
            AnyPhase::Enter(x) => x.next(),
            AnyPhase::Break(x) => x.next(),
            AnyPhase::TakeNle(x) => x.next(),
            AnyPhase::Lock(x) => x.next(),
            AnyPhase::Look(x) => x.next(),
            AnyPhase::Unlock(x) => x.next(),
            AnyPhase::Arrive(x) => x.next(),
            AnyPhase::SetFlag(x) => x.next(),
        }
    }

    /// Whether its next operation posts a notice, which is counted.
    pub fn is_posting(&self) -> bool
        ensures { result ≡ posts self.now }
    {
        match self {
            AnyPhase::Post(x) => x.is_telling(),
            _ => false,
        }
    }

    /// Takes the answer of that operation.
    #[tactic(auto, using(crate::proofs::Calling::answers))]
    pub fn after(&mut self, got: u64) -> Turn<Outcome>
        requires { phase_open self.old ≡ true }
        ensures job { (o : Own) (f : outcome → Job) → settled o (job_after (phase_job self.old f) got) ≡ settled (noted self.old o) (turned result f (phase_job self.new f)) }
        ensures open { result ≡ More → phase_open self.new ≡ true }
        ensures lay { phase_lay self.new ≡ phase_lay self.old }
        ensures home { (h : ℕ) → result ≡ Done (Outcome.Node h) → h < (phase_lay self.old).nodes }
        ensures holder { (m : ℕ) → result ≡ Done (Outcome.Holder (Some m)) → m < (phase_lay self.old).nodes }
    {
        match self {
            AnyPhase::Draw(x) => number(x.after(got)),
            AnyPhase::Stamp(x) => nothing(x.after(got)),
            AnyPhase::Take(x) => nothing(x.after(got)),
            AnyPhase::Give(x) => nothing(x.after(got)),
            AnyPhase::SetMap(x) => nothing(x.after(got)),
            AnyPhase::Sharers(x) => row(x.after(got)),
            AnyPhase::MyDir(x) => number(x.after(got)),
            AnyPhase::Holder(x) => holder(x.after(got)),
            AnyPhase::Register(x) => nothing(x.after(got)),
            AnyPhase::Claim(x) => nothing(x.after(got)),
            AnyPhase::Withdraw(x) => nothing(x.after(got)),
            AnyPhase::FindHome(x) => node(x.after(got)),
            AnyPhase::Leave(x) => whether(x.after(got)),
            AnyPhase::HasTwin(x) => whether(x.after(got)),
            AnyPhase::MakeTwin(x) => nothing(x.after(got)),
            AnyPhase::DropTwin(x) => whether(x.after(got)),
            AnyPhase::Post(x) => posted(x.after(got)),
            AnyPhase::Drain(x) => nothing(x.after(got)),
            AnyPhase::TakeOwn(x) => pages(x.after(got)),
            AnyPhase::Stale(x) => whether(x.after(got)),
            AnyPhase::LastFlush(x) => number(x.after(got)),
            AnyPhase::Flush(x) => nothing(x.after(got)),
            AnyPhase::OpenMerge { n: _, g: _, merge } => {
                let mut merge = *merge;
                let turn = merge.after(got);
                *self = AnyPhase::Merge(merge);
                nothing(turn)
            }
            AnyPhase::Merge(x) => nothing(x.after(got)),
            AnyPhase::OpenOverwrite {
                n: _,
                g: _,
                overwrite,
            } => {
                let mut overwrite = *overwrite;
                let turn = overwrite.after(got);
                *self = AnyPhase::Overwrite(overwrite);
                nothing(turn)
            }
            AnyPhase::Overwrite(x) => nothing(x.after(got)),
            AnyPhase::Enter(x) => nothing(x.after(got)),
            AnyPhase::Break(x) => nothing(x.after(got)),
            AnyPhase::TakeNle(x) => pages(x.after(got)),
            AnyPhase::Lock(x) => found(x.after(got)),
            AnyPhase::Look(x) => found(x.after(got)),
            AnyPhase::Unlock(x) => nothing(x.after(got)),
            AnyPhase::Arrive(x) => number(x.after(got)),
            AnyPhase::SetFlag(x) => number(x.after(got)),
        }
    }
}

fn nothing(turn: Turn<()>) -> Turn<Outcome>
    ensures is { result ≡ told (λ _. Outcome.Nothing) turn }
    ensures no_node { (h : ℕ) → result ≡ Done (Outcome.Node h) → ⊥ }
    ensures no_holder { (m : ℕ) → result ≡ Done (Outcome.Holder (Some m)) → ⊥ }
{
    match turn {
        Turn::More => Turn::More,
        Turn::Done(()) => Turn::Done(Outcome::Nothing),
    }
}

/// How many were told is counted as they are told.
fn posted(turn: Turn<u64>) -> Turn<Outcome>
    ensures is { result ≡ told (λ _. Outcome.Nothing) turn }
    ensures no_node { (h : ℕ) → result ≡ Done (Outcome.Node h) → ⊥ }
    ensures no_holder { (m : ℕ) → result ≡ Done (Outcome.Holder (Some m)) → ⊥ }
{
    match turn {
        Turn::More => Turn::More,
        Turn::Done(_) => Turn::Done(Outcome::Nothing),
    }
}

fn number(turn: Turn<u64>) -> Turn<Outcome>
    ensures is { result ≡ told Outcome.Number turn }
    ensures no_node { (h : ℕ) → result ≡ Done (Outcome.Node h) → ⊥ }
    ensures no_holder { (m : ℕ) → result ≡ Done (Outcome.Holder (Some m)) → ⊥ }
{
    match turn {
        Turn::More => Turn::More,
        Turn::Done(v) => Turn::Done(Outcome::Number { v }),
    }
}

fn node(turn: Turn<u32>) -> Turn<Outcome>
    ensures is { result ≡ told Outcome.Node turn }
    ensures node { (h : ℕ) → result ≡ Done (Outcome.Node h) → turn ≡ Done h }
    ensures no_holder { (m : ℕ) → result ≡ Done (Outcome.Holder (Some m)) → ⊥ }
{
    match turn {
        Turn::More => Turn::More,
        Turn::Done(h) => Turn::Done(Outcome::Node { h }),
    }
}

fn whether(turn: Turn<bool>) -> Turn<Outcome>
    ensures is { result ≡ told Outcome.Whether turn }
    ensures no_node { (h : ℕ) → result ≡ Done (Outcome.Node h) → ⊥ }
    ensures no_holder { (m : ℕ) → result ≡ Done (Outcome.Holder (Some m)) → ⊥ }
{
    match turn {
        Turn::More => Turn::More,
        Turn::Done(b) => Turn::Done(Outcome::Whether { b }),
    }
}

fn pages(turn: Turn<[u64; 4]>) -> Turn<Outcome>
    ensures is { result ≡ told Outcome.Pages turn }
    ensures no_node { (h : ℕ) → result ≡ Done (Outcome.Node h) → ⊥ }
    ensures no_holder { (m : ℕ) → result ≡ Done (Outcome.Holder (Some m)) → ⊥ }
{
    match turn {
        Turn::More => Turn::More,
        Turn::Done(set) => Turn::Done(Outcome::Pages { set }),
    }
}

fn row(turn: Turn<Row>) -> Turn<Outcome>
    ensures is { result ≡ told Outcome.Row turn }
    ensures no_node { (h : ℕ) → result ≡ Done (Outcome.Node h) → ⊥ }
    ensures no_holder { (m : ℕ) → result ≡ Done (Outcome.Holder (Some m)) → ⊥ }
{
    match turn {
        Turn::More => Turn::More,
        Turn::Done(row) => Turn::Done(Outcome::Row { row }),
    }
}

fn holder(turn: Turn<Option<u32>>) -> Turn<Outcome>
    ensures is { result ≡ told Outcome.Holder turn }
    ensures no_node { (h : ℕ) → result ≡ Done (Outcome.Node h) → ⊥ }
    ensures holder { (m : ℕ) → result ≡ Done (Outcome.Holder (Some m)) → turn ≡ Done (Some m) }
{
    match turn {
        Turn::More => Turn::More,
        Turn::Done(m) => Turn::Done(Outcome::Holder { m }),
    }
}

fn found(turn: Turn<Got>) -> Turn<Outcome>
    ensures is { result ≡ told Outcome.Got turn }
    ensures no_node { (h : ℕ) → result ≡ Done (Outcome.Node h) → ⊥ }
    ensures no_holder { (m : ℕ) → result ≡ Done (Outcome.Holder (Some m)) → ⊥ }
{
    match turn {
        Turn::More => Turn::More,
        Turn::Done(got) => Turn::Done(Outcome::Got { got }),
    }
}
