// The XOR of bytes, which is a packet's checksum.
#![tactic(auto)]

ghost use Rattle.std.specs.Prelude.{◌≡◌};
ghost use Rattle.xor.specs.Xor.{xor_all};

pub fn xor_all(bytes: &[u8]) -> u8
    ensures { result ≡ xor_all bytes.now }
{
    bytes.iter().fold(0, |sum, b| sum ^ *b)
}
