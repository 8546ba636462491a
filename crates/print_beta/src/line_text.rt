//! Texts of one line, which take no memory.
ghost use Rattle.std.specs.Prelude.{◌≡◌, ◌+◌, ◌≤◌, ◌++◌, length, decimal};
ghost use Rattle.std.specs.List.{flat_map};
ghost use Rattle.std.specs.Fmt.{signed_decimal};
ghost use Rattle.frac128.specs.Frac.{fraction_text};
ghost use Rattle.print_beta.specs.ComponentText.{conjugate_text, generation_text, next_value_text, values_text, field_leg_text, leg_text, next_leg_text, component_text};

use frac128::Frac;
use gauge_check::Component;
use itoa::Buffer;
use model_core::{InlineBytes, Leg, Name, Slots};

/// The text of a line, which takes no memory.
pub type LineText = InlineBytes<4096>;

/// A line of these bytes.
pub fn short_line(text: &[u8]) -> LineText
    requires { length text.now ≤ 256 }
    ensures { result ≡ text.now }
{
    let mut line = LineText::new();
    line.extend(text);
    line
}

/// Adds a number.
pub fn push_number(line: &mut LineText, number: u32)
    requires { length line.old + 40 ≤ 4096 }
    ensures value { line.new ≡ line.old ++ decimal number }
    ensures short { length line.new ≤ length line.old + 40 }
{
    let mut buffer = Buffer::new();
    line.extend(buffer.format(number).as_bytes());
}

/// Adds a number with its sign.
fn push_signed(line: &mut LineText, number: i128)
    requires { length line.old + 40 ≤ 4096 }
    ensures value { line.new ≡ line.old ++ signed_decimal number }
    ensures short { length line.new ≤ length line.old + 40 }
{
    let mut buffer = Buffer::new();
    line.extend(buffer.format(number).as_bytes());
}

/// Adds a fraction: `p`, or `p/q`.
pub fn push_fraction(line: &mut LineText, fraction: &Frac)
    requires { length line.old + 81 ≤ 4096 }
    ensures value { line.new ≡ line.old ++ fraction_text fraction.now }
    ensures short { length line.new ≤ length line.old + 81 }
{
    push_signed(line, fraction.num());
    if fraction.den() == 1 {
        return;
    }
    line.extend(b"/");
    push_signed(line, fraction.den());
}

/// Adds `~` for a conjugate.
fn push_conjugate(line: &mut LineText, conj: bool)
    requires { length line.old + 1 ≤ 4096 }
    ensures value { line.new ≡ line.old ++ conjugate_text conj }
    ensures short { length line.new ≤ length line.old + 1 }
{
    if conj {
        line.extend(b"~");
    }
}

/// Adds a generation in brackets, and nothing where the field has one generation.
fn push_generation(line: &mut LineText, generation: u32)
    requires { length line.old + 42 ≤ 4096 }
    ensures value { line.new ≡ line.old ++ generation_text generation }
    ensures short { length line.new ≤ length line.old + 42 }
{
    if generation == 0 {
        return;
    }
    line.extend(b"[");
    push_number(line, generation);
    line.extend(b"]");
}

/// Adds slot values behind a first one.
fn push_next_values(line: &mut LineText, values: &[u8])
    requires few { length values.now ≤ 12 }
    requires room { length line.old + 492 ≤ 4096 }
    ensures value { line.new ≡ line.old ++ flat_map next_value_text values.now }
    ensures short { length line.new ≤ length line.old + 492 }
{
    for value in values {
        line.extend(b",");
        push_number(line, u32::from(*value));
    }
}

/// Adds slot values in parentheses, and nothing where there are none.
fn push_values(line: &mut LineText, values: &[u8])
    requires few { length values.now ≤ 12 }
    requires room { length line.old + 534 ≤ 4096 }
    ensures value { line.new ≡ line.old ++ values_text values.now }
    ensures short { length line.new ≤ length line.old + 534 }
{
    match values {
        [] => {}
        [first, rest @ ..] => {
            line.extend(b"(");
            push_number(line, u32::from(*first));
            push_next_values(line, rest);
            line.extend(b")");
        }
    }
}

/// Adds a component of a field.
fn push_field_leg(line: &mut LineText, name: &Name, conj: bool, generation: u32, slots: &Slots)
    requires { length line.old + 601 ≤ 4096 }
    ensures value { line.new ≡ line.old ++ field_leg_text name.now conj generation slots.now }
    ensures short { length line.new ≤ length line.old + 601 }
{
    line.extend(name.as_bytes());
    push_conjugate(line, conj);
    push_generation(line, generation);
    push_values(line, slots.as_slice());
}

/// Adds a leg.
fn push_leg(line: &mut LineText, leg: &Leg)
    requires { length line.old + 601 ≤ 4096 }
    ensures value { line.new ≡ line.old ++ leg_text leg.now }
    ensures short { length line.new ≤ length line.old + 601 }
{
    match leg {
        Leg::Fermion {
            name,
            conj,
            generation,
            slots,
        } => push_field_leg(line, name, *conj, *generation, slots),
        Leg::Scalar {
            name,
            conj,
            generation,
            slots,
        } => push_field_leg(line, name, *conj, *generation, slots),
        Leg::Dummy => line.extend(b"#"),
    }
}

/// Adds legs behind a first one.
fn push_next_legs(line: &mut LineText, legs: &[Leg])
    requires few { length legs.now ≤ 4 }
    requires room { length line.old + 2408 ≤ 4096 }
    ensures value { line.new ≡ line.old ++ flat_map next_leg_text legs.now }
    ensures short { length line.new ≤ length line.old + 2408 }
{
    for leg in legs {
        line.extend(b" ");
        push_leg(line, leg);
    }
}

/// Adds a component of a block: its legs, with one space between two.
pub fn push_component(line: &mut LineText, component: &Component)
    requires { length line.old + 3009 ≤ 4096 }
    ensures value { line.new ≡ line.old ++ component_text component.now }
    ensures short { length line.new ≤ length line.old + 3009 }
{
    match component.as_slice() {
        [] => {}
        [first, rest @ ..] => {
            push_leg(line, first);
            push_next_legs(line, rest);
        }
    }
}
