// The question about the bounds of the log odds (crate `params`).
ghost use Rattle.std.specs.Prelude.{◌≡◌};
ghost use Rattle.questions.specs.Questions.{first_missed};
ghost use Rattle.params.specs.Settings.{fusion_questions};

#[unsafe(no_mangle)]
pub extern "C" fn lanegravel_validate_fusion(f: params::settings::FusionParams) -> u32
    ensures { result ≡ first_missed (fusion_questions f) }
{
    questions::number(params::validate::missed_by_fusion(f))
}
