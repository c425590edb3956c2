// A part of a slice of bytes.
#![tactic(auto)]

ghost use Rattle.std.specs.Prelude.{◌≡◌, take, drop};
ghost use Rattle.parts.specs.Parts.{PartFrom};

// The bytes at a place, cut to what the memory holds, so that a wrong place is harmless.
pub fn cut(memory: &[u8], offset: usize, length: usize) -> &[u8]
    ensures result_value { result.now ≡ take length (drop offset memory.now) }
    ensures place { PartFrom memory.entry offset result }
{
    if memory.len() <= offset {
        return &memory[memory.len()..];
    }
    if length <= memory.len() - offset {
        let end = offset + length;
        return &memory[offset..end];
    }
    &memory[offset..]
}
