// What is said of lists in specs/, their laws in proofs/, and the copying of bytes.
#![tactic(auto)]

ghost use Rattle.std.specs.Prelude.{◌≡◌, ◌≤◌, ◌++◌, length, drop};

// Copies bytes to the front of out, of which the rest stays as it was, and answers how many. With copy_from_slice alone each of
// its callers would write the length twice.
pub fn copy(bytes: &[u8], out: &mut [u8]) -> usize
    requires { length bytes.now ≤ length out.old }
    ensures count { result ≡ length bytes.now }
    ensures laid { out.new ≡ bytes.now ++ drop (length bytes.now) out.old }
{
    let n = bytes.len();
    out[..n].copy_from_slice(bytes);
    n
}
