ghost use Rattle.std.specs.Prelude.{◌≡◌, ◌↔◌, IsSome, IfSome};
ghost use Rattle.dsm_isa.specs.Limits.{IsWithinLimits};

/// How large the shared memory of a program is, and how many locks, barriers and flags there are.
#[derive(Clone, Copy, Debug, PartialEq, Eq)]
pub struct Shape {
    /// The pages, 1 to 256.
    pub pages: u32,
    /// The words of a page, 1 to 256.
    pub words: u32,
    /// The locks, 0 to 64.
    pub locks: u32,
    /// The barriers, 0 to 16.
    pub barriers: u32,
    /// The flags, 0 to 64.
    pub flags: u32,
    pub ghost within: { IsWithinLimits pages words locks barriers flags },
}

impl Shape {
    /// The shape of these numbers, and None exactly where one of them is out of its limit.
    pub fn new(pages: u32, words: u32, locks: u32, barriers: u32, flags: u32) -> Option<Shape>
        ensures some { IsSome result ↔ IsWithinLimits pages words locks barriers flags }
        ensures pages { IfSome result (λ s. s.pages ≡ pages) }
        ensures words { IfSome result (λ s. s.words ≡ words) }
        ensures locks { IfSome result (λ s. s.locks ≡ locks) }
        ensures barriers { IfSome result (λ s. s.barriers ≡ barriers) }
        ensures flags { IfSome result (λ s. s.flags ≡ flags) }
    {
        let memory = 1 <= pages && pages <= 256 && 1 <= words && words <= 256;
        let objects = locks <= 64 && barriers <= 16 && flags <= 64;
        if memory && objects {
            Some(Shape {
                pages,
                words,
                locks,
                barriers,
                flags,
            })
        } else {
            None
        }
    }
}
