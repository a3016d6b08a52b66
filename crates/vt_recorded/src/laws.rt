//! Theorems about lines of recorders. Each is the contract of a function without effect.

ghost use Rattle.vt_recorded.specs.Readings.{ReadingsAreOne};

/// The reading of a line is unique.
pub fn readings_are_one()
    ensures { ReadingsAreOne }
{
    vt_can::laws::readings_are_one();
}
