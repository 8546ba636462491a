ghost use Rattle.frac128.specs.Field.{RatioLaws, FieldLaws, OrderLaws, SizeLaws, WholeLaws};

/// The rational numbers, of which contracts speak, are the ratios of whole numbers, and an ordered
/// field with a size, in which whole numbers calculate as they do among themselves.
///
/// `specs/Field.antt` states each law by name, and shows how a crate above proves an identity of
/// fractions in one line.
pub fn rational_numbers_are_an_ordered_field()
    ensures ratios { RatioLaws }
    ensures field { FieldLaws }
    ensures order { OrderLaws }
    ensures size { SizeLaws }
    ensures whole { WholeLaws }
{}
