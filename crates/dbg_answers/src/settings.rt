// The command that shows a setting, and the one that ends the session.
ghost use Rattle.std.specs.Prelude.{◌≡◌};
ghost use Rattle.dbg_model.specs.declared.reply.Content.TheVariants as content;
ghost use Rattle.dbg_model.specs.Outcome.{exits, showing};
ghost use Rattle.dbg_model.specs.Command.{setting_value};
ghost use Rattle.dbg_answers.specs.Answer.{outcome_of};

use crate::answer::{Answer, showing};
use crate::debuggee::Debuggee;
use dbg_effects::Effect;
use dbg_model::Content;
use mi_commands::{Displaced, Setting};

// The value of a setting. The mode is always non-stop, and commands are always done while harts run.
fn setting_value(displaced: Displaced, setting: Setting) -> Displaced
    ensures { result ≡ setting_value displaced setting }
{
    match setting {
        Setting::NonStop | Setting::MiAsync => Displaced::On,
        Setting::DisplacedStepping => displaced,
    }
}

/// `-gdb-show SETTING`.
pub fn show_setting(debuggee: &Debuggee<'_>, setting: Setting) -> Answer
    ensures { outcome_of result ≡ showing (content.Setting (setting_value debuggee.now.displaced setting)) }
{
    showing(Content::Setting(setting_value(debuggee.displaced, setting)))
}

/// `-gdb-exit`.
pub fn exit() -> Answer
    ensures { outcome_of result ≡ record { content = content.Exit; change = exits } }
{
    Answer {
        content: Content::Exit,
        effect: Effect::Exit,
    }
}
