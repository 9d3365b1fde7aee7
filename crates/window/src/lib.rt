// The replay window, after window.rs.
#![tactic(auto)]

ghost use Rattle.std.specs.Prelude.{◌≡◌};
ghost use Rattle.window.specs.Window.{unmarked, verdict, marking};

// How many numbers have a mark: the highest and those below it.
pub const WIDTH: u64 = 64;

// A number was not used, was used, or is the width or more below the highest, used or not.
#[derive(Clone, Copy)]
pub enum Verdict {
    Fresh,
    Seen,
    TooOld,
}

// The highest number marked, and the marks of it and the 63 below it: bit k is the mark of max_seq - k.
#[derive(Clone, Copy)]
pub struct ReplayWindow {
    pub max_seq: u64,
    pub window: u64,
}

impl ReplayWindow {
    // Highest 0, nothing marked.
    pub fn new() -> Self
        ensures { result ≡ unmarked }
    {
        ReplayWindow {
            max_seq: 0,
            window: 0,
        }
    }

    // The verdict on a number.
    pub fn check(self, seqno: u64) -> Verdict
        ensures { result ≡ verdict self seqno }
    {
        let top = self.max_seq;
        if top < seqno {
            return Verdict::Fresh;
        }
        let offset = top - seqno;
        if WIDTH <= offset {
            return Verdict::TooOld;
        }
        let clear = (self.window >> offset) % 2 == 0;
        if clear {
            return Verdict::Fresh;
        }
        Verdict::Seen
    }

    // The window with a number marked. Call it only once the record is opened.
    #[tactic(auto, unfolding(crate::specs::Window::marking, base::specs::Choose::choose))]
    pub fn update(self, seqno: u64) -> Self
        ensures { result ≡ marking self seqno }
    {
        let top = self.max_seq;
        if top < seqno {
            let delta = seqno - top;
            if delta < WIDTH {
                return ReplayWindow {
                    max_seq: seqno,
                    window: (self.window << delta) | 1,
                };
            }
            return ReplayWindow {
                max_seq: seqno,
                window: 1,
            };
        }
        let offset = top - seqno;
        if offset < WIDTH {
            return ReplayWindow {
                max_seq: top,
                window: self.window | (1 << offset),
            };
        }
        self
    }
}

// The window that the caller lends has a number marked, in place.
pub fn mark(w: &mut ReplayWindow, seqno: u64)
    ensures { w.new ≡ marking w.old seqno }
{
    let v = *w;
    *w = v.update(seqno);
}
