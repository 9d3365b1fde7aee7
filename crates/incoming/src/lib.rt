// Reading an opened record, after incoming.rs.
#![tactic(auto)]

ghost use Rattle.std.specs.Prelude.{◌≡◌, ◌≤◌, length};
ghost use Rattle.incoming.specs.Inner.{inner_of};
ghost use Rattle.incoming.specs.Padding.{left_of};

// What an opened record holds: its content type, and the length of the content in front of it.
#[derive(Clone, Copy)]
pub struct Inner {
    pub content_type: u8,
    pub length: usize,
}

// Zeros are passed by as many as base::be64 reads, since one by one takes several times as long.
const WORD_LEN: usize = 8;

// How many of the first n bytes are left when words of zeros are taken off their end.
fn without_zero_words(d: &[u8], n: usize) -> usize
    requires { n ≤ length d.now }
    ensures { result ≡ left_of d.now n }
{
    let mut left = n;
    while WORD_LEN <= left {
        let start = left - WORD_LEN;
        if base::be::<8>(d, start) != 0 {
            return left;
        }
        left = start;
    }
    left
}

// Trailing zeros removed, the last byte left is the content type, and what precedes it the content; `None` of zeros alone.
pub fn recover_inner_content_type(decrypted: &[u8]) -> Option<Inner>
    ensures { result ≡ inner_of decrypted.now }
{
    let mut n = decrypted.len();
    while 0 < n {
        let last = n - 1;
        let byte = decrypted[last];
        if byte != 0 {
            return Some(Inner {
                content_type: byte,
                length: last,
            });
        }
        n = without_zero_words(decrypted, last);
    }
    None
}
