// The questions about the settings (crate `params`).
ghost use Rattle.std.specs.Prelude.{◌≡◌};
ghost use Rattle.questions.specs.Questions.{first_missed};
ghost use Rattle.params.specs.Settings.{settings_questions};

#[unsafe(no_mangle)]
pub extern "C" fn lanegravel_validate(p: params::settings::RulingsParams) -> u32
    ensures { result ≡ first_missed (settings_questions p) }
{
    questions::number(params::validate::missed_by_settings(p))
}
