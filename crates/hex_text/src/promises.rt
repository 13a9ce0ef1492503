//! What holds of all hex text.
ghost use Rattle.hex_text.specs.ReadBack.{WrittenHexReadsBack};

pub fn written_hex_reads_back() -> u8
    ensures { WrittenHexReadsBack }
{
    0
}
