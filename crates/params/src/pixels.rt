// The limits in pixels that settings and x-height give.
ghost use Rattle.std.specs.Prelude.{◌≡◌, ◌*◌};
ghost use Rattle.math.specs.Rounding.{rounded_product};
ghost use Rattle.math.specs.Steps.{UpTo};
ghost use Rattle.params.specs.Limits.{limit_of};

// round(setting * xheight), where that is not below 0.
pub fn limit(setting: f64, xheight: f64) -> u64
    requires { UpTo (2 * 1000000 * 4096) (rounded_product setting xheight) }
    ensures { result ≡ limit_of setting xheight }
{
    // By `as`, since there is no `From` from i64 to u64; the product is not below 0.
    rounding::rounded_product(setting, xheight) as u64
}

// The same in 32 bits, which hold every limit that is not doubled.
pub fn limit_u32(setting: f64, xheight: f64) -> u32
    requires { UpTo (1000000 * 4096) (rounded_product setting xheight) }
    ensures { result ≡ limit_of setting xheight }
{
    limit(setting, xheight) as u32
}
