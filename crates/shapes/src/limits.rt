// What the settings and the x-height come to, in pixels.
ghost use Rattle.std.specs.Prelude.{◌≡◌};
ghost use Rattle.params.specs.Steps.{SettingsPassed};
ghost use Rattle.shapes.specs.Limits.{table_limits_of};

use params::settings::RulingsParams;

#[derive(Clone, Copy)]
pub struct Limits {
    pub join: u64,
    pub cluster: u64,
    pub min_horizontal: u32,
    pub min_vertical: u32,
}

pub fn limits_of(p: RulingsParams, xheight: f64) -> Limits
    requires { SettingsPassed p xheight }
    ensures { result ≡ table_limits_of p xheight }
{
    let join = params::pixels::limit(p.join_tol_xh, xheight);
    let cluster = params::pixels::limit(p.line_cluster_xh, xheight);
    Limits {
        join,
        cluster,
        min_horizontal: p.table_min_horizontal,
        min_vertical: p.table_min_vertical,
    }
}
