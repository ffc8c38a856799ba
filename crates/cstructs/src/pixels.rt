//! What the one-pixel call answers, as C has it.
ghost use Rattle.std.specs.Prelude.{◌≡◌, [], ◌∷◌};
ghost use Rattle.pixel.specs.Call.{found_said};
ghost use Rattle.cstructs.specs.Answers.{result_by, pixel_c};

use layout::{Numbered, Refusal};

/// strip_pixel_answer
#[repr(C)]
#[derive(Clone, Copy, Debug, PartialEq, Eq)]
pub struct PixelAnswer {
    pub refusal: u32,
    pub place: u32,
    pub value: i32,
}

impl PixelAnswer {
    /// A pixel, or the refusal, whatever refused.
    pub fn new<R: Numbered>(found: Result<i32, R>) -> PixelAnswer
        ensures { result ≡ pixel_c (result_by R.number_said R.place_said (λ z. z ∷ []) found) }
    {
        match found {
            Err(no) => PixelAnswer {
                refusal: no.number(),
                place: no.place(),
                value: 0,
            },
            Ok(value) => PixelAnswer {
                refusal: 0,
                place: 0,
                value,
            },
        }
    }
}

impl From<Result<i32, Refusal>> for PixelAnswer {
    ghost from_gives = { λ f a. a ≡ pixel_c (found_said f) };

    fn from(found: Result<i32, Refusal>) -> PixelAnswer {
        PixelAnswer::new(found)
    }
}
