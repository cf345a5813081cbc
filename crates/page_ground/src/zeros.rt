//! The test for a page of zeros.

ghost use Rattle.std.specs.Prelude.{◌≡◌, ◌↔◌, IsTrue, length, replicate};
ghost use Rattle.page_ground.specs.Pages.{are_zeros};

/// Whether a page is zeros.
pub fn is_zero_page(page: &[u8]) -> bool
    ensures test { result ≡ are_zeros page.now }
    ensures zeros { IsTrue result ↔ (page.now ≡ replicate (length page.now) 0) }
{
    page.iter().all(|byte| *byte == 0)
}
