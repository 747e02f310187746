// What is written back to status register 1 and configuration register 1: a changed field, and every
// other bit as read.
ghost use Rattle.std.specs.Prelude.{◌≡◌, is_some, unwrap_or};
ghost use Rattle.zedboard_bsp.specs.Registers as spec;

// The status register with bit 7 clear and the protection as asked.
pub fn protected(sr: u8, protection: u8) -> u8
    ensures byte { result ≡ spec.protected sr protection }
{
    sr / 32 % 4 * 32 + protection % 8 * 4 + sr % 4
}

// The configuration register with the quad bit set where asked.
fn quad_set(quad: bool, cr: u8) -> u8
    ensures byte { result ≡ spec.quad_set quad cr }
{
    if quad { cr / 4 * 4 + 2 + cr % 2 } else { cr }
}

// The configuration register with the quad bit and the latency code as asked.
pub fn configured_cr(quad: bool, latency: Option<u8>, cr: u8) -> u8
    ensures byte { result ≡ spec.configured_cr quad (is_some latency) (unwrap_or latency 0) cr }
{
    let with_quad = quad_set(quad, cr);
    match latency {
        Some(latency) => latency % 4 * 64 + with_quad % 64,
        None => with_quad,
    }
}

// The status register with the protection cleared as asked; where there is none bit 7 stays.
pub fn configured_sr(clear: bool, sr: u8) -> u8
    ensures byte { result ≡ spec.configured_sr clear sr }
{
    if clear && sr / 4 % 8 != 0 {
        protected(sr, 0)
    } else {
        sr
    }
}

// Whether something that is asked for is not so yet. `cr` is before `sr`, as `new` reads them; in `words` `sr` is
// first, as they stand in the word.
pub fn update_needed(quad: bool, latency: Option<u8>, clear: bool, cr: u8, sr: u8) -> bool
    ensures needed { result ≡ spec.update_needed quad (is_some latency) (unwrap_or latency 0) clear cr sr }
{
    (quad && cr / 2 % 2 == 0)
        || latency.is_some_and(|latency| cr / 64 % 4 != latency % 4)
        || (clear && sr / 4 % 8 != 0)
}
