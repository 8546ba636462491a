//! The lines of refusals.
ghost use Rattle.std.specs.Prelude.{◌≡◌, ◌+◌, ◌≤◌, ◌++◌, length};
ghost use Rattle.rate_tool.specs.StatusLine.{fault_text, term_text, anomaly_text, overflow_text, numbers_text, head_text, generator_text, change_text, coupling_text, kind_text, part_text, anomaly_kind_text};
ghost use Rattle.print_beta.specs.Text.{entry_text};

use anomaly_check::{Anomaly, AnomalyKind};
use frac128::{Frac, Overflow};
use gauge_check::{Component, TermFault};
use model_core::{Name, Part, ReadFault, ReadKind};
use print_beta::{LineText, push_component, push_fraction, push_number};

/// The name of a kind.
fn kind_name(kind: ReadKind) -> &'static [u8]
    ensures value { result.now ≡ kind_text kind }
    ensures short { length result.now ≤ 16 }
{
    match kind {
        ReadKind::NotToml => b"NotToml",
        ReadKind::UnknownKey => b"UnknownKey",
        ReadKind::MissingKey => b"MissingKey",
        ReadKind::WrongType => b"WrongType",
        ReadKind::BadName => b"BadName",
        ReadKind::RepeatedName => b"RepeatedName",
        ReadKind::BadNumber => b"BadNumber",
        ReadKind::BadGroup => b"BadGroup",
        ReadKind::SecondAbelian => b"SecondAbelian",
        ReadKind::BadRep => b"BadRep",
        ReadKind::BadRealScalar => b"BadRealScalar",
        ReadKind::BadTermText => b"BadTermText",
        ReadKind::UnknownField => b"UnknownField",
        ReadKind::WrongSlots => b"WrongSlots",
        ReadKind::LabelCount => b"LabelCount",
        ReadKind::WrongContent => b"WrongContent",
        ReadKind::OverLimit => b"OverLimit",
    }
}

/// The name of a part.
fn part_name(part: Part) -> &'static [u8]
    ensures value { result.now ≡ part_text part }
    ensures short { length result.now ≤ 16 }
{
    match part {
        Part::File => b"file",
        Part::Group => b"group",
        Part::Fermion => b"fermion",
        Part::Scalar => b"scalar",
        Part::Table => b"table",
        Part::Term => b"term",
    }
}

/// The name of a kind of anomaly.
fn anomaly_name(kind: AnomalyKind) -> &'static [u8]
    ensures value { result.now ≡ anomaly_kind_text kind }
    ensures short { length result.now ≤ 16 }
{
    match kind {
        AnomalyKind::Cubic => b"Cubic",
        AnomalyKind::Global => b"Global",
        AnomalyKind::Mixed => b"Mixed",
        AnomalyKind::Gravity => b"Gravity",
        AnomalyKind::Abelian => b"Abelian",
    }
}

/// Adds the three numbers of a fault.
fn push_numbers(line: &mut LineText, fault: &ReadFault)
    requires { length line.old + 122 ≤ 4096 }
    ensures value { line.new ≡ line.old ++ numbers_text fault.now }
    ensures short { length line.new ≤ length line.old + 122 }
{
    push_number(line, fault.index);
    line.extend(b" ");
    push_number(line, fault.at);
    line.extend(b" ");
    push_number(line, fault.count);
}

/// The line of a malformed file.
pub fn fault_line(fault: &ReadFault) -> LineText
    ensures { result ≡ fault_text fault.now }
{
    let mut line = LineText::new();
    line.extend(b"malformed ");
    line.extend(kind_name(fault.kind));
    line.extend(b" ");
    line.extend(part_name(fault.part));
    line.extend(b" ");
    push_numbers(&mut line, fault);
    line.extend(b"\n");
    line
}

/// The head of a line on a term: its place and its coupling.
fn term_head(term: u32, coupling: &Name) -> LineText
    ensures value { result ≡ head_text term coupling.now }
    ensures short { length result ≤ 70 }
{
    let mut line = LineText::new();
    line.extend(b"term ");
    push_number(&mut line, term);
    line.extend(b" ");
    line.extend(coupling.as_bytes());
    line
}

/// Adds a generator: the name of its group, and the indices of X_ij.
fn push_generator(line: &mut LineText, group: &Name, i: u8, j: u8)
    requires { length line.old + 127 ≤ 4096 }
    ensures value { line.new ≡ line.old ++ generator_text group.now i j }
    ensures short { length line.new ≤ length line.old + 127 }
{
    line.extend(b" not invariant under ");
    line.extend(group.as_bytes());
    line.extend(b" ");
    push_number(line, u32::from(i));
    line.extend(b" ");
    push_number(line, u32::from(j));
}

/// Adds a component and the value there.
fn push_change(line: &mut LineText, component: &Component, value: &Frac)
    requires { length line.old + 3102 ≤ 4096 }
    ensures value { line.new ≡ line.old ++ change_text component.now value.now }
    ensures short { length line.new ≤ length line.old + 3102 }
{
    line.extend(b" at ");
    push_component(line, component);
    line.extend(b" value ");
    push_fraction(line, value);
    line.extend(b"\n");
}

/// Adds a symbol's row and column, and nothing for a coupling that is one symbol.
fn push_entry(line: &mut LineText, row: u32, column: u32)
    requires { length line.old + 83 ≤ 4096 }
    ensures value { line.new ≡ line.old ++ entry_text row column }
    ensures short { length line.new ≤ length line.old + 83 }
{
    if row == 0 {
        return;
    }
    line.extend(b"[");
    push_number(line, row);
    line.extend(b",");
    push_number(line, column);
    line.extend(b"]");
}

/// Adds the symbol of a coupling.
fn push_symbol(line: &mut LineText, coupling: &Name, conj: bool, row: u32, column: u32)
    requires { length line.old + 120 ≤ 4096 }
    ensures value { line.new ≡ line.old ++ coupling_text coupling.now conj row column }
    ensures short { length line.new ≤ length line.old + 120 }
{
    if !conj {
        line.extend(coupling.as_bytes());
        push_entry(line, row, column);
        return;
    }
    line.extend(b"conj(");
    line.extend(coupling.as_bytes());
    push_entry(line, row, column);
    line.extend(b")");
}

/// The line of a term with a fault.
pub fn term_line(fault: &TermFault) -> LineText
    ensures { result ≡ term_text fault.now }
{
    match fault {
        TermFault::NotInvariant {
            term,
            coupling,
            group,
            i,
            j,
            component,
            value,
        } => {
            let mut line = term_head(*term, coupling);
            push_generator(&mut line, group, *i, *j);
            push_change(&mut line, component, value);
            line
        }
        TermFault::NotHermitian {
            term,
            coupling,
            component,
        } => {
            let mut line = term_head(*term, coupling);
            line.extend(b" not hermitian at ");
            push_component(&mut line, component);
            line.extend(b"\n");
            line
        }
        TermFault::Dependent {
            term,
            coupling,
            symbol,
            row,
            column,
        } => {
            let mut line = term_head(*term, coupling);
            line.extend(b" dependent ");
            push_symbol(&mut line, coupling, symbol.conj, *row, *column);
            line.extend(b"\n");
            line
        }
    }
}

/// The line of an anomaly.
pub fn anomaly_line(anomaly: &Anomaly) -> LineText
    ensures { result ≡ anomaly_text anomaly.now }
{
    let mut line = LineText::new();
    line.extend(b"anomalous ");
    line.extend(anomaly_name(anomaly.kind));
    line.extend(b" ");
    line.extend(anomaly.group.as_bytes());
    line.extend(b" ");
    push_fraction(&mut line, &anomaly.trace);
    line.extend(b"\n");
    line
}

/// The line of a refused sum or product.
pub fn overflow_line(pair: &Overflow) -> LineText
    ensures { result ≡ overflow_text pair.now }
{
    let mut line = LineText::new();
    line.extend(b"overflow ");
    push_fraction(&mut line, &pair.a);
    line.extend(b" ");
    push_fraction(&mut line, &pair.b);
    line.extend(b"\n");
    line
}
