ghost use Rattle.std.specs.Prelude.{◌≡◌, ◌+◌, ◌≤◌, ◌++◌, decimal, drop, length};
ghost use Rattle.vc_script.specs.Print.{watch_text};

use itoa::write_digits;

// A line of a bounded length is made from its end on, in a buffer on the stack. Each part is put before what stands from `at`
// on, and the answer is where it begins.

#[inline(always)]
pub(crate) fn text_before(buf: &mut [u8], at: usize, text: &[u8]) -> usize
    requires within { at ≤ length buf.old }
    requires room { length text.now ≤ at }
    ensures start { result + length text.now ≡ at }
    ensures written { drop result buf.new ≡ text.now ++ drop at buf.old }
{
    let start = at - text.len();
    buf[start..at].copy_from_slice(text);
    start
}

// A number has at most 20 digits.
#[inline(always)]
pub(crate) fn number_before(buf: &mut [u8], at: usize, n: u64) -> usize
    requires within { at ≤ length buf.old }
    requires room { 20 ≤ at }
    ensures least { at ≤ result + 20 }
    ensures most { result ≤ at }
    ensures written { drop result buf.new ≡ decimal n ++ drop at buf.old }
{
    write_digits(n, buf, at)
}

// ` watched L`, where there is a watch.
#[inline(always)]
pub(crate) fn watch_before(buf: &mut [u8], at: usize, watch: Option<u32>) -> usize
    requires within { at ≤ length buf.old }
    requires room { 29 ≤ at }
    ensures least { at ≤ result + 29 }
    ensures most { result ≤ at }
    ensures written { drop result buf.new ≡ watch_text watch ++ drop at buf.old }
{
    match watch {
        None => at,
        Some(number) => {
            let start = number_before(buf, at, u64::from(number));
            text_before(buf, start, b" watched ")
        }
    }
}
