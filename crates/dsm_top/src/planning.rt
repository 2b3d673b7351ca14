ghost use Rattle.std.specs.Prelude.{◌≡◌, ◌≢◌, ◌↔◌, ℕ, ◌<◌, ◌≤◌, ◌^◌, IsTrue, All, Any, ◌++◌, ◌+◌, ◌∷◌, [], List, IfSome, IfNone, IfOk, IfErr, MatchOption, length, codes, decimal};
ghost use Rattle.dsm_words.specs.Counts.{IsFrom1To};
ghost use Rattle.dsm_words.specs.declared.topology.Topology.{Topology as topology_of};
ghost use Rattle.dsm_top.specs.declared.plans.Command.TheVariants.{Sim, Run, Gen};
ghost use Rattle.dsm_top.specs.declared.plans.Plan.{Plan as plan_of_words};
ghost use Rattle.dsm_top.specs.declared.plans.Setting.{Setting as setting_of};
ghost use Rattle.dsm_top.specs.Plans.{texts, topology_word, seed_word, word_of, name_of, IsInRange, IsOf, AreSome, IsGivenBy, limits_in, endless_in, schedule_of, Give, FirstUnset, Cluster, FirstOutside, PlanOf, FirstFault, runs_by_threads};

use crate::plans::{
    Command, DEFAULT_LOOKS, DEFAULT_SEED, DEFAULT_STEPS, DEFAULT_TURNS, KindWord, MOST_LOOKS,
    MOST_STEPS, MOST_TURNS, Plan, Setting,
};
use dsm_lex::laws::lex_law;
use dsm_lex::spelling::number;
use dsm_protocol::limits::Limits;
use dsm_sched::kind::Kind;
use dsm_words::topology::Topology;

/// What the settings among some words give.
#[derive(Clone, Copy)]
struct Given {
    kind: Option<KindWord>,
    seed: Option<u64>,
    turns: Option<u64>,
    looks: Option<u64>,
    steps: Option<u64>,
    trace: Option<bool>,
    threads: Option<bool>,
}

/// The plan that the words ask for, or the number, from 1, of the first faulty word. It takes no memory.
pub fn plan(words: &[String]) -> Result<Plan, u64>
    ensures plan { IfOk result (λ p. PlanOf (texts words.now) p) }
    ensures fault { IfErr result (λ k. FirstFault (texts words.now) k) }
{
    let Some((name, rest)) = words.split_first() else {
        return Err(1);
    };
    match name.as_str() {
        "check" => alone(rest, Plan::Check),
        "list" => alone(rest, Plan::List),
        "sim" => simulation(rest),
        "run" => threaded(rest),
        "gen" => generation(rest),
        _ => Err(1),
    }
}

/// Whether the words ask to run a program with one thread for each processor. It takes no memory.
pub fn needs_threads(words: &[String]) -> bool
    ensures { IsTrue result ↔ ((p : plan_of_words) × PlanOf (texts words.now) p × IsTrue (runs_by_threads p)) }
{
    match plan(words) {
        Ok(plan) => plan.runs_by_threads(),
        Err(_) => false,
    }
}

/// The plan of a command that is one word, where no word stands behind it.
fn alone(rest: &[String], plan: Plan) -> Result<Plan, u64>
    ensures plan { IfOk result (λ p. (p ≡ plan) × (texts rest.now ≡ [])) }
    ensures fault { IfErr result (λ k. (k ≡ 2) × (1 ≤ length rest.now)) }
{
    if rest.is_empty() { Ok(plan) } else { Err(2) }
}

/// The plan of `sim` and the words behind it.
fn simulation(rest: &[String]) -> Result<Plan, u64>
    ensures plan { IfOk result (λ p. PlanOf (codes "sim" ∷ texts rest.now) p) }
    ensures fault { IfErr result (λ k. FirstFault (codes "sim" ∷ texts rest.now) k) }
{
    match cluster(Command::Sim, rest) {
        Ok((t, given)) => Ok(given.simulation(t)),
        Err(k) => Err(k + 1),
    }
}

/// The plan of `run` and the words behind it.
fn threaded(rest: &[String]) -> Result<Plan, u64>
    ensures plan { IfOk result (λ p. PlanOf (codes "run" ∷ texts rest.now) p) }
    ensures fault { IfErr result (λ k. FirstFault (codes "run" ∷ texts rest.now) k) }
{
    match cluster(Command::Run, rest) {
        Ok((t, given)) => Ok(given.threaded(t)),
        Err(k) => Err(k + 1),
    }
}

/// The plan of `gen` and the words behind it.
fn generation(rest: &[String]) -> Result<Plan, u64>
    ensures plan { IfOk result (λ p. PlanOf (codes "gen" ∷ texts rest.now) p) }
    ensures fault { IfErr result (λ k. FirstFault (codes "gen" ∷ texts rest.now) k) }
{
    let Some((word, rest)) = rest.split_first() else {
        return Err(2);
    };
    let Some(seed) = number_after(word.as_str().as_bytes(), b"seed=") else {
        return Err(2);
    };
    match cluster(Command::Gen, rest) {
        Ok((t, given)) => Ok(given.generation(seed, t)),
        Err(k) => Err(k + 2),
    }
}

/// The cluster that the first word asks for, and what the settings behind it give, or the number, from 1, of the first
/// faulty word.
fn cluster(command: Command, words: &[String]) -> Result<(Topology, Given), u64>
    ensures cluster { IfOk result (λ x. Cluster command (texts words.now) x.0 x.1) }
    ensures fault { IfErr result (λ k. FirstOutside command (texts words.now) k) }
{
    let Some((word, rest)) = words.split_first() else {
        return Err(1);
    };
    let Some(t) = topology(word.as_str()) else {
        return Err(1);
    };
    match settings(command, rest) {
        Ok(given) => Ok((t, given)),
        Err(k) => Err(k + 1),
    }
}

/// The cluster that a word asks for, as `2x4` does.
fn topology(word: &str) -> Option<Topology>
    ensures some { IfSome result (λ t. word.now ≡ topology_word t) }
    ensures none { IfNone result ((t : topology_of) → word.now ≡ topology_word t → ⊥) }
{
    let (nodes, procs) = word.split_once('x')?;
    let nodes = small_number(nodes.as_bytes())?;
    let procs = small_number(procs.as_bytes())?;
    Topology::new(nodes, procs).ok()
}

/// The number that a word spells.
fn small_number(word: &[u8]) -> Option<u32>
    ensures some { IfSome result (λ n. word.now ≡ decimal n) }
    ensures none { IfNone result ((n : ℕ) → n < 2 ^ 32 → word.now ≡ decimal n → ⊥) }
{
    lex_law();
    u32::try_from(number(word)?).ok()
}

/// What the words behind the command set, or the number, from 1, of the first that sets nothing, what the command does
/// not take, or what one before it does.
fn settings(command: Command, words: &[String]) -> Result<Given, u64>
    ensures given { IfOk result (λ given. Give command (texts words.now) given) }
    ensures fault { IfErr result (λ k. FirstUnset command (texts words.now) k) }
{
    let mut given = Given {
        kind: None,
        seed: None,
        turns: None,
        looks: None,
        steps: None,
        trace: None,
        threads: None,
    };
    for (i, word) in words.iter().enumerate() {
        let Some(more) = given.with_word(command, word.as_str().as_bytes()) else {
            return Err(i as u64 + 1);
        };
        given = more;
    }
    Ok(given)
}

impl Given {
    /// With what one more word sets, if the command takes it and it is not given yet.
    fn with_word(self, command: Command, word: &[u8]) -> Option<Given>
        ensures { (words : List (List ℕ)) → Give command words self → MatchOption result (AreSome command (words ++ word.now ∷ []) → ⊥) (λ more. Give command (words ++ word.now ∷ []) more) }
    {
        let setting = setting_of_command(command, word)?;
        if self.has(setting) {
            None
        } else {
            Some(self.with(setting))
        }
    }

    /// Whether it is given what this setting sets.
    fn has(self, setting: Setting) -> bool
        ensures { (settings : List setting_of) → IsGivenBy self settings → IsTrue result ↔ Any (λ other. name_of other ≡ name_of setting) settings }
    {
        match setting {
            Setting::Kind(_) => self.kind.is_some(),
            Setting::Seed(_) => self.seed.is_some(),
            Setting::Turns(_) => self.turns.is_some(),
            Setting::Looks(_) => self.looks.is_some(),
            Setting::Steps(_) => self.steps.is_some(),
            Setting::Trace => self.trace.is_some(),
            Setting::Threads => self.threads.is_some(),
        }
    }

    /// With one more setting.
    fn with(self, setting: Setting) -> Given
        ensures { (settings : List setting_of) → IsGivenBy self settings → All (λ other. name_of other ≢ name_of setting) settings → IsGivenBy result (settings ++ setting ∷ []) }
    {
        match setting {
            Setting::Kind(kind) => Given {
                kind: Some(kind),
                ..self
            },
            Setting::Seed(n) => Given {
                seed: Some(n),
                ..self
            },
            Setting::Turns(n) => Given {
                turns: Some(n),
                ..self
            },
            Setting::Looks(n) => Given {
                looks: Some(n),
                ..self
            },
            Setting::Steps(n) => Given {
                steps: Some(n),
                ..self
            },
            Setting::Trace => Given {
                trace: Some(true),
                ..self
            },
            Setting::Threads => Given {
                threads: Some(true),
                ..self
            },
        }
    }

    /// The limits that are given, and the default of what is not.
    fn limits(self) -> Limits
        ensures { (settings : List setting_of) → IsGivenBy self settings → result ≡ limits_in settings }
    {
        Limits {
            turns: self.turns.unwrap_or(DEFAULT_TURNS),
            looks: Some(self.looks.unwrap_or(DEFAULT_LOOKS)),
        }
    }

    /// The limits that are given where there are threads: no look is the last allowed one.
    fn endless(self) -> Limits
        ensures { (settings : List setting_of) → IsGivenBy self settings → result ≡ endless_in settings }
    {
        Limits {
            looks: None,
            ..self.limits()
        }
    }

    /// The plan to simulate this cluster with what is given, and with the default of all else.
    fn simulation(self, t: Topology) -> Plan
        ensures { (words : List (List ℕ)) → Give Sim words self → PlanOf (codes "sim" ∷ topology_word t ∷ words) result }
    {
        Plan::Sim {
            t,
            limits: self.limits(),
            kind: schedule(
                self.kind.unwrap_or(KindWord::Round),
                self.seed.unwrap_or(DEFAULT_SEED),
            ),
            steps: self.steps.unwrap_or(DEFAULT_STEPS),
            trace: self.trace.unwrap_or(false),
        }
    }

    /// The plan to run this cluster by threads with what is given, and with the default of all else.
    fn threaded(self, t: Topology) -> Plan
        ensures { (words : List (List ℕ)) → Give Run words self → PlanOf (codes "run" ∷ topology_word t ∷ words) result }
    {
        let trace = self.trace.unwrap_or(false);
        Plan::Run {
            t,
            limits: self.endless(),
            trace,
        }
    }

    /// The plan to run the program of this seed on this cluster with what is given, and with the default of all else.
    fn generation(self, seed: u64, t: Topology) -> Plan
        ensures { (words : List (List ℕ)) → Give Gen words self → PlanOf (codes "gen" ∷ seed_word seed ∷ topology_word t ∷ words) result }
    {
        let threads = self.threads.unwrap_or(false);
        Plan::Gen {
            seed,
            t,
            limits: if threads {
                self.endless()
            } else {
                self.limits()
            },
            steps: self.steps.unwrap_or(DEFAULT_STEPS),
            threads,
        }
    }
}

/// The schedule of this kind; only a mixed one uses the seed.
fn schedule(kind: KindWord, seed: u64) -> Kind
    ensures { result ≡ schedule_of kind seed }
{
    match kind {
        KindWord::Round => Kind::Round,
        KindWord::Mixed => Kind::Mixed { seed },
    }
}

/// The setting that a word is, if it is one that the command takes.
fn setting_of_command(command: Command, word: &[u8]) -> Option<Setting>
    ensures some { IfSome result (λ setting. IsInRange setting × IsOf command setting × (word.now ≡ word_of setting)) }
    ensures none { IfNone result ((setting : setting_of) → IsInRange setting → IsOf command setting → word.now ≡ word_of setting → ⊥) }
{
    let setting = setting(word)?;
    if takes(command, setting) {
        Some(setting)
    } else {
        None
    }
}

/// Whether the command takes the setting.
fn takes(command: Command, setting: Setting) -> bool
    ensures { IsTrue result ↔ IsOf command setting }
{
    match (command, setting) {
        (Command::Sim, Setting::Threads) => false,
        (Command::Sim, _) => true,
        (Command::Run, Setting::Turns(_) | Setting::Trace) => true,
        (Command::Run, _) => false,
        (
            Command::Gen,
            Setting::Turns(_) | Setting::Looks(_) | Setting::Steps(_) | Setting::Threads,
        ) => true,
        (Command::Gen, _) => false,
    }
}

/// The setting that a word is, if it is one and its number is in its range.
fn setting(word: &[u8]) -> Option<Setting>
    ensures some { IfSome result (λ setting. IsInRange setting × (word.now ≡ word_of setting)) }
    ensures none { IfNone result ((setting : setting_of) → IsInRange setting → word.now ≡ word_of setting → ⊥) }
{
    if word == b"kind=round".as_slice() {
        return Some(Setting::Kind(KindWord::Round));
    }
    if word == b"kind=mixed".as_slice() {
        return Some(Setting::Kind(KindWord::Mixed));
    }
    if let Some(n) = number_after(word, b"seed=") {
        return Some(Setting::Seed(n));
    }
    if word == b"trace".as_slice() {
        return Some(Setting::Trace);
    }
    if word == b"threads".as_slice() {
        return Some(Setting::Threads);
    }
    if let Some(n) = number_behind(word, b"turns=", MOST_TURNS) {
        return Some(Setting::Turns(n));
    }
    if let Some(n) = number_behind(word, b"looks=", MOST_LOOKS) {
        return Some(Setting::Looks(n));
    }
    let n = number_behind(word, b"steps=", MOST_STEPS)?;
    Some(Setting::Steps(n))
}

/// The number that stands in a word behind `name`.
fn number_after(word: &[u8], name: &[u8]) -> Option<u64>
    ensures some { IfSome result (λ n. word.now ≡ name.now ++ decimal n) }
    ensures none { IfNone result ((n : ℕ) → n < 2 ^ 64 → word.now ≡ name.now ++ decimal n → ⊥) }
{
    lex_law();
    number(word.strip_prefix(name)?)
}

/// The number from 1 to `most` that stands in a word behind `name`.
fn number_behind(word: &[u8], name: &[u8], most: u64) -> Option<u64>
    ensures some { IfSome result (λ n. IsFrom1To most n × (word.now ≡ name.now ++ decimal n)) }
    ensures none { IfNone result ((n : ℕ) → IsFrom1To most n → word.now ≡ name.now ++ decimal n → ⊥) }
{
    let n = number_after(word, name)?;
    if 1 <= n && n <= most { Some(n) } else { None }
}
