ghost use Rattle.std.specs.Prelude.{◌≡◌, ◌<◌, ◌^◌, ◌||◌, ◌++◌, ◌∷◌, ℕ, List, [], ◌&&◌, Option, None, true, length, IfErr, IfOk, OnOk, MatchOption, false, Some};
ghost use Rattle.std.specs.Option.{is_some, option_map};
ghost use Rattle.dsm_grammar.specs.Grammar.{meaning_of};
ghost use Rattle.dsm_grammar.specs.Lines.{label_of, statement_of};
ghost use Rattle.dsm_grammar.specs.Statements.{named, instructions};
ghost use Rattle.dsm_isa.specs.ProgramText.{Sizes as sizes_type};
ghost use Rattle.dsm_asm.specs.Assembled.{IsRefused};
ghost use Rattle.dsm_asm.specs.Directives.{directive_in, initial, of_size};
ghost use Rattle.dsm_asm.specs.Forms.{statement_in};
ghost use Rattle.dsm_asm.specs.Lines.{Says};
ghost use Rattle.dsm_asm.specs.Past.{Past as past_type, past_of, behind_statement, statement_fault_behind, fault_behind, directive_fault, instruction_fault, is_double as defined_before};
ghost use Rattle.dsm_asm.specs.Table.{held, places};
ghost use Rattle.dsm_asm.specs.Words.{listed};

use crate::fault::LineErr;
use crate::forms::{Form, form_of};
use crate::instructions::instruction;
use crate::labels::Labels;
use crate::operands::Operands;
use crate::said::{Said, Statement, read_line};
use crate::settings::{Directive, Settings, directive_of};
use dsm_grammar::fault::{AsmKind, Bound};
use dsm_isa::code::MOST;
use dsm_isa::instr::Instr;
use std::alloc::Global;
use std::marker::Model;

/// What the lines so far have left.
#[derive(Drop)]
pub struct Assembly {
    pub settings: Settings,
    /// Whether there was a label or an instruction.
    pub begun: bool,
    pub code: Vec<Instr>,
}

impl Model for Assembly {
    ghost use Rattle.dsm_asm.specs.Past.{Past};

    ghost Value = { Past };

    ghost view = { λ a. record { settings = a.settings.set; initial = a.settings.begun; begun = a.begun; code = a.code.items } };
}

impl Assembly {
    /// Behind no line. It takes no memory.
    pub fn new(alloc: Global) -> Assembly
        ensures { (labels : List ℕ → Option ℕ) → result ≡ past_of labels [] }
    {
        Assembly {
            settings: Settings::new(alloc),
            begun: false,
            code: Vec::new(alloc),
        }
    }

    /// Takes the next line, before which there are `number` lines.
    pub fn take(&mut self, line: &[u8], number: u32, labels: &Labels) -> Result<(), LineErr>
        requires { length line.now < 2 ^ 32 }
        ensures sound { OnOk result (fault_behind self.old (places labels.now) (defined_before (held labels.now) number line.now) line.now ≡ None) }
        ensures behind { OnOk result (self.new ≡ behind_statement (places labels.now) (is_some (label_of line.now)) (statement_of line.now) self.old) }
        ensures fault { IfErr result (IsRefused (fault_behind self.old (places labels.now) (defined_before (held labels.now) number line.now) line.now)) }
    {
        let said = read(line, number, labels)?;
        self.say(said.statement, said.label.is_some(), labels)
    }

    /// Takes what the line says.
    fn say(
        &mut self,
        statement: Option<Statement>,
        labelled: bool,
        labels: &Labels,
    ) -> Result<(), LineErr>
        ensures sound { OnOk result ((words : List (List ℕ)) → MatchOption statement.entry (words ≡ []) (λ s. Says words s) → statement_fault_behind self.old (places labels.now) labelled words ≡ None) }
        ensures behind { OnOk result ((words : List (List ℕ)) → MatchOption statement.entry (words ≡ []) (λ s. Says words s) → self.new ≡ behind_statement (places labels.now) labelled words self.old) }
        ensures fault { IfErr result (λ e. (words : List (List ℕ)) → MatchOption statement.entry (words ≡ []) (λ s. Says words s) → IsRefused (statement_fault_behind self.old (places labels.now) labelled words) e) }
    {
        match statement {
            Some(statement) => self.state(statement, labelled, labels),
            None => {
                self.begun = self.begun || labelled;
                Ok(())
            }
        }
    }

    /// Takes a directive or an instruction.
    fn state(
        &mut self,
        statement: Statement,
        labelled: bool,
        labels: &Labels,
    ) -> Result<(), LineErr>
        ensures sound { OnOk result ((words : List (List ℕ)) → Says words statement.entry → statement_fault_behind self.old (places labels.now) labelled words ≡ None) }
        ensures behind { OnOk result ((words : List (List ℕ)) → Says words statement.entry → self.new ≡ behind_statement (places labels.now) labelled words self.old) }
        ensures fault { IfErr result (λ e. (words : List (List ℕ)) → Says words statement.entry → IsRefused (statement_fault_behind self.old (places labels.now) labelled words) e) }
    {
        if let Some(directive) = directive_of(statement.name) {
            return self.direct(directive, statement.operands, labelled);
        }
        let form = known_form(statement.name)?;
        self.instruct(form, statement.operands, labels)
    }

    /// Does what a directive says.
    fn direct(
        &mut self,
        directive: Directive,
        operands: Operands,
        labelled: bool,
    ) -> Result<(), LineErr>
        ensures sound { OnOk result ((labels : List ℕ → Option ℕ) → directive_fault self.old labels labelled directive (listed operands.entry) ≡ None) }
        ensures settings { OnOk result (self.new.settings ≡ meaning_of (λ label. None) (directive_in self.old.settings directive) (listed operands.entry)) }
        ensures initial { OnOk result (self.new.initial ≡ (self.old.initial || initial directive)) }
        ensures begun { OnOk result (self.new.begun ≡ self.old.begun) }
        ensures code { OnOk result (self.new.code ≡ self.old.code) }
        ensures fault { IfErr result (λ e. (labels : List ℕ → Option ℕ) → IsRefused (directive_fault self.old labels labelled directive (listed operands.entry)) e) }
    {
        self.may_stand(directive, labelled)?;
        self.settings.set(directive, operands)
    }

    /// Refuses a directive that comes too late.
    fn may_stand(&self, directive: Directive, labelled: bool) -> Result<(), AsmKind>
        ensures timely { OnOk result ((self.now.begun || labelled || of_size directive && self.now.initial) ≡ false) }
        ensures fault { IfErr result (λ kind. ((self.now.begun || labelled || of_size directive && self.now.initial) ≡ true) × (kind ≡ AsmKind.DirectiveLate)) }
    {
        if self.begun || labelled || directive.is_of_size() && self.settings.has_begun() {
            return Err(AsmKind::DirectiveLate);
        }
        Ok(())
    }

    /// Appends an instruction.
    fn instruct(&mut self, form: Form, operands: Operands, labels: &Labels) -> Result<(), LineErr>
        ensures sound { OnOk result (instruction_fault self.old (places labels.now) form (listed operands.entry) ≡ None) }
        ensures settings { OnOk result (self.new.settings ≡ self.old.settings) }
        ensures initial { OnOk result (self.new.initial ≡ self.old.initial) }
        ensures begun { OnOk result (self.new.begun ≡ true) }
        ensures code { OnOk result (self.new.code ≡ self.old.code ++ meaning_of (places labels.now) (statement_in self.old.settings.sizes form) (listed operands.entry) ∷ []) }
        ensures fault { IfErr result (IsRefused (instruction_fault self.old (places labels.now) form (listed operands.entry))) }
    {
        let instr = self.next_instruction(form, operands, labels)?;
        self.code.push(instr)?;
        self.begun = true;
        Ok(())
    }

    /// The instruction of this form with these operands, where the code has room for it.
    fn next_instruction(
        &self,
        form: Form,
        operands: Operands,
        labels: &Labels,
    ) -> Result<Instr, AsmKind>
        ensures sound { OnOk result (instruction_fault self.now (places labels.now) form (listed operands.entry) ≡ None) }
        ensures meaning { IfOk result (λ i. meaning_of (places labels.now) (statement_in self.now.settings.sizes form) (listed operands.entry) ≡ i) }
        ensures fault { IfErr result (λ kind. instruction_fault self.now (places labels.now) form (listed operands.entry) ≡ Some kind) }
    {
        let instr = instruction(form, operands, &self.settings, labels)?;
        if self.code.len() >= MOST {
            return Err(AsmKind::Limit(Bound::Code));
        }
        Ok(instr)
    }
}

/// What a line says, before which there are `number` lines, or what is wrong with it before its statement is looked at.
fn read<'a>(line: &'a [u8], number: u32, labels: &Labels) -> Result<Said<'a>, AsmKind>
    requires { length line.now < 2 ^ 32 }
    ensures label { IfOk result (λ said. option_map (λ label. label.now) said.label ≡ label_of line.now) }
    ensures statement { IfOk result (λ said. MatchOption said.statement (statement_of line.now ≡ []) (λ s. Says (statement_of line.now) s)) }
    ensures sound { OnOk result ((past : past_type) (to : List ℕ → Option ℕ) → fault_behind past to (defined_before (held labels.now) number line.now) line.now ≡ statement_fault_behind past to (is_some (label_of line.now)) (statement_of line.now)) }
    ensures fault { IfErr result (λ kind. (past : past_type) (to : List ℕ → Option ℕ) → fault_behind past to (defined_before (held labels.now) number line.now) line.now ≡ Some kind) }
{
    let said = read_line(line);
    if !said.plain {
        return Err(AsmKind::NotAscii);
    }
    if !said.short {
        return Err(AsmKind::LongLine);
    }
    if is_double(said.label, number, labels) {
        return Err(AsmKind::DoubleLabel);
    }
    Ok(said)
}

/// The form of the instruction of this name.
fn known_form(name: &[u8]) -> Result<Form, AsmKind>
    ensures form { IfOk result (λ form. (there : sizes_type) → named name.now (instructions there) ≡ Some (statement_in there form)) }
    ensures fault { IfErr result (λ kind. ((there : sizes_type) → named name.now (instructions there) ≡ None) × (kind ≡ AsmKind.UnknownWord)) }
{
    form_of(name).ok_or(AsmKind::UnknownWord)
}

/// Whether an earlier line defines the label.
fn is_double(label: Option<&[u8]>, number: u32, labels: &Labels) -> bool
    ensures { (line : List ℕ) → option_map (λ l. l.now) label.entry ≡ label_of line → result ≡ defined_before (held labels.now) number line }
{
    match label {
        Some(name) => match labels.get(name) {
            Some(label) => label.line < number,
            None => false,
        },
        None => false,
    }
}
