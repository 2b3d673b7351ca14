ghost use Rattle.std.specs.Prelude.{◌≡◌, ◌<◌, ◌*◌, ◌||◌, ℕ, List, Option, Some, None, true, false, IfOk, IfErr, IfNone, IfSome, OnOk, codes, map};
ghost use Rattle.std.specs.Option.{option_map};
ghost use Rattle.std.specs.Str.{bytes_eq};
ghost use Rattle.dsm_isa.specs.ProgramText.{sizes_of};
ghost use Rattle.dsm_grammar.specs.Settings.{Settings as Set, default_settings, starts_as};
ghost use Rattle.dsm_grammar.specs.Statements.{named, directives};
ghost use Rattle.dsm_grammar.specs.Grammar.{meaning_of};
ghost use Rattle.dsm_grammar.specs.Faults.{is_of_size as names_size};
ghost use Rattle.dsm_asm.specs.Assembled.{IsRefused};
ghost use Rattle.dsm_asm.specs.Words.{listed, words_fault};
ghost use Rattle.dsm_asm.specs.Directives.{directive_in, of_size, initial};

use crate::fault::LineErr;
use crate::operands::Operands;
use dsm_grammar::fault::Bound;
use dsm_isa::shape::Shape;
use std::alloc::{AllocError, Global};
use std::marker::Model;

/// A directive.
#[derive(Clone, Copy, Debug, PartialEq, Eq)]
pub enum Directive {
    Pages,
    Words,
    Locks,
    Barriers,
    Flags,
    Init,
}

/// The directive of this name, where there is one.
pub fn directive_of(name: &[u8]) -> Option<Directive>
    ensures named { (s : Set) → named name.now (directives s) ≡ option_map (directive_in s) result }
    ensures size { IfSome result (λ d. names_size name.now ≡ of_size d) }
    ensures init { IfSome result (λ d. bytes_eq name.now (codes ".init") ≡ initial d) }
    ensures no_init { IfNone result (bytes_eq name.now (codes ".init") ≡ false) }
{
    match name {
        b".pages" => Some(Directive::Pages),
        b".words" => Some(Directive::Words),
        b".locks" => Some(Directive::Locks),
        b".barriers" => Some(Directive::Barriers),
        b".flags" => Some(Directive::Flags),
        b".init" => Some(Directive::Init),
        _ => None,
    }
}

impl Directive {
    /// Whether it sets the size of the memory.
    pub fn is_of_size(self) -> bool
        ensures { result ≡ of_size self }
    {
        match self {
            Directive::Pages | Directive::Words => true,
            _ => false,
        }
    }
}

/// What the directives have set.
#[derive(Drop)]
pub struct Settings {
    pages: u32,
    words: u32,
    locks: u32,
    barriers: u32,
    flags: u32,
    /// What each word starts as, and empty before the first `.init`.
    values: Vec<u64>,
}

impl Model for Settings {
    ghost use Rattle.std.specs.Prelude.{◌≡◌, ℕ, ◌*◌, ◌<◌, ◌==◌, not, length};
    ghost use Rattle.dsm_isa.specs.Limits.{IsWithinLimits};
    ghost use Rattle.dsm_asm.specs.Directives.{Held, nonzero};

    ghost Value = { Held };

    ghost view = { λ s. record {
      set = record {
        sizes = record { pages = s.pages; words = s.words; locks = s.locks; barriers = s.barriers; flags = s.flags };
        init = nonzero 0 s.values.items;
      };
      begun = not (length s.values.items == 0);
    } };

    ghost invariant = { λ s. IsWithinLimits s.pages s.words s.locks s.barriers s.flags × (0 < length s.values.items → length s.values.items ≡ s.pages * s.words) };
}

impl Settings {
    /// What holds where nothing is set. It takes no memory.
    pub fn new(alloc: Global) -> Settings
        ensures set { result.set ≡ default_settings }
        ensures begun { result.begun ≡ false }
    {
        Settings {
            pages: 1,
            words: 64,
            locks: 0,
            barriers: 0,
            flags: 0,
            values: Vec::new(alloc),
        }
    }

    /// Whether a word was set.
    pub fn has_begun(&self) -> bool
        ensures { result ≡ self.now.begun }
    {
        !self.values.is_empty()
    }

    /// How many locks there are.
    pub fn locks(&self) -> u32
        ensures { result ≡ self.now.set.sizes.locks }
    {
        self.locks
    }

    /// How many barriers there are.
    pub fn barriers(&self) -> u32
        ensures { result ≡ self.now.set.sizes.barriers }
    {
        self.barriers
    }

    /// How many flags there are.
    pub fn flags(&self) -> u32
        ensures { result ≡ self.now.set.sizes.flags }
    {
        self.flags
    }

    /// Does what a directive says, which sets no size where a word was set.
    pub fn set(&mut self, directive: Directive, operands: Operands) -> Result<(), LineErr>
        requires { of_size directive ≡ true → self.old.begun ≡ false }
        ensures sound { OnOk result ((labels : List ℕ → Option ℕ) → words_fault labels (directive_in self.old.set directive).places (listed operands.entry) ≡ None) }
        ensures set { OnOk result (self.new.set ≡ meaning_of (λ label. None) (directive_in self.old.set directive) (listed operands.entry)) }
        ensures begun { OnOk result (self.new.begun ≡ (self.old.begun || initial directive)) }
        ensures fault { IfErr result (λ e. (labels : List ℕ → Option ℕ) → IsRefused (words_fault labels (directive_in self.old.set directive).places (listed operands.entry)) e) }
    {
        match directive {
            Directive::Pages => self.pages = operands.within(Bound::Pages, 1, 257)?,
            Directive::Words => self.words = operands.within(Bound::Words, 1, 257)?,
            Directive::Locks => self.locks = operands.within(Bound::Locks, 0, 65)?,
            Directive::Barriers => self.barriers = operands.within(Bound::Barriers, 0, 17)?,
            Directive::Flags => self.flags = operands.within(Bound::Flags, 0, 65)?,
            Directive::Init => {
                let (word, value) = operands.below_number(Bound::Address, self.pages * self.words)?;
                self.start(word, value)?;
            }
        }
        Ok(())
    }

    /// Has a word start as a value.
    fn start(&mut self, word: u32, value: u64) -> Result<(), AllocError>
        requires { word < self.old.set.sizes.pages * self.old.set.sizes.words }
        ensures sizes { OnOk result (self.new.set.sizes ≡ self.old.set.sizes) }
        ensures init { OnOk result (self.new.set.init ≡ starts_as word value self.old.set.init) }
        ensures begun { OnOk result (self.new.begun ≡ true) }
    {
        self.begin()?;
        self.values[word as usize] = value;
        Ok(())
    }

    /// Holds each word, where none was set.
    fn begin(&mut self) -> Result<(), AllocError>
        ensures set { OnOk result (self.new.set ≡ self.old.set) }
        ensures begun { OnOk result (self.new.begun ≡ true) }
    {
        if self.values.is_empty() {
            self.values.resize((self.pages * self.words) as usize, 0)?;
        }
        Ok(())
    }

    /// The sizes that were set.
    pub fn shape(&self) -> Shape
        ensures { sizes_of result ≡ self.now.set.sizes }
    {
        Shape {
            pages: self.pages,
            words: self.words,
            locks: self.locks,
            barriers: self.barriers,
            flags: self.flags,
        }
    }

    /// The words that do not start as 0, by ascending addresses.
    pub fn initial(&self, alloc: Global) -> Result<Vec<(u32, u64)>, AllocError>
        ensures { IfOk result (λ init. init.items ≡ self.now.set.init) }
    {
        let mut init = Vec::new(alloc);
        for (word, value) in self.values.iter().enumerate() {
            if *value != 0 {
                init.push((word as u32, *value))?;
            }
        }
        Ok(init)
    }
}
