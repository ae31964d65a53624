// The ChESS response of one pixel from its samples, after `response.rs`.
#![tactic(auto)]

ghost use Rattle.std.specs.Prelude.{◌≡◌, get_or};
ghost use Rattle.pixel_response.specs.Samples.{response_of};

pub mod pixel;

// The arithmetic of one pixel: the sixteen samples of the ring, and the pixel with those above, below, right and left of it.
pub fn chess_response_at_u8(ring: &[u8; 16], cross: &[u8; 5]) -> f32
    ensures { result ≡ response_of (λ k. get_or ring.now k 0) (λ k. get_or cross.now k 0) }
{
    let mut square = 0u16;
    let mut edge = 0u16;
    let mut sum = 0u16;
    for k in 0..4usize {
        let a = ring[k] as u16;
        let b = ring[k + 4] as u16;
        let c = ring[k + 8] as u16;
        let d = ring[k + 12] as u16;
        square = square + pixel::square_of(a, b, c, d);
        edge = edge + pixel::edges_of(a, b, c, d);
        sum = sum + pixel::sum_of(a, b, c, d);
    }
    let five = pixel::cross_of(
        cross[0] as u16,
        cross[1] as u16,
        cross[2] as u16,
        cross[3] as u16,
        cross[4] as u16,
    );
    pixel::value_of(square, edge, sum, five)
}
