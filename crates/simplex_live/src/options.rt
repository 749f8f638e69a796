//! What the arguments of `audit_live` begin with: the window, and files.

ghost use Rattle.std.specs.Prelude.{◌≡◌, ◌≤◌, IfOk, IfErr, List, Option, ℕ, drop, length, map, option_map, string_bytes};
ghost use Rattle.simplex_live.specs.Options.{AreBehindFile, AreBehindOptions, AreBehindWindow, lookahead_of};
ghost use Rattle.simplex_live.specs.declared.options.Options as declared;

use simplex_base::positions::{TermLength, ViewDelta};
use simplex_cli::options::parse_option;
use simplex_cli::status::Failure;
use simplex_lead::Lookahead;

/// How many views before the finalized one are retained, unless the arguments say so.
const RETAINED: u64 = 1000;

/// How many views ahead votes are taken, unless the arguments say so.
const AHEAD: u64 = 10;

/// What the options of `audit_live` say.
#[derive(Clone, Copy)]
pub struct Options<'a> {
    /// How many views before the finalized one are retained.
    pub retained: u64,
    /// How many views ahead votes are taken.
    pub ahead: u64,
    /// The file of keys.
    pub keys: Option<&'a str>,
    /// The file of the state.
    pub state: Option<&'a str>,
}

/// What the options say that the arguments begin with, and how many arguments these are.
pub fn parse_options(arguments: &[String]) -> Result<(Options<'_>, usize), Failure>
    ensures options { IfOk result (λ (options, count). AreBehindOptions
        (map string_bytes arguments.now) options (drop count (map string_bytes arguments.now))) }
    ensures within { IfOk result (λ (_, count). count ≤ length arguments.now) }
    ensures usage { IfErr result (λ e. (options : declared.Options) (behind : List (List ℕ)) →
        ¬ AreBehindOptions (map string_bytes arguments.now) options behind) }
    ensures failure { IfErr result (λ e. e ≡ Failure.Usage) }
{
    let (retained, ahead, first) = parse_window(arguments)?;
    let (keys, second) = parse_file(&arguments[first..], "--keys")?;
    let (state, third) = parse_file(&arguments[first + second..], "--state")?;
    let options = Options {
        retained,
        ahead,
        keys,
        state,
    };
    Ok((options, first + second + third))
}

/// How many views before the finalized one are retained, behind `--retain`, and how many views ahead votes are taken, behind
/// `--ahead`, and how many arguments these are. Without an option these are 1,000 views and 10 views. Numbers are decimal
/// digits, without sign or leading zeros.
fn parse_window(arguments: &[String]) -> Result<(u64, u64, usize), Failure>
    ensures window { IfOk result (λ (retained, ahead, count). AreBehindWindow
        (map string_bytes arguments.now) retained ahead (drop count (map string_bytes arguments.now))) }
    ensures within { IfOk result (λ (_, _, count). count ≤ length arguments.now) }
    ensures usage { IfErr result (λ e. (retained ahead : ℕ) (behind : List (List ℕ)) →
        ¬ AreBehindWindow (map string_bytes arguments.now) retained ahead behind) }
    ensures failure { IfErr result (λ e. e ≡ Failure.Usage) }
{
    let (retained, first) = parse_option(arguments, "--retain", RETAINED)?;
    let (ahead, second) = parse_option(&arguments[first..], "--ahead", AHEAD)?;
    Ok((retained, ahead, first + second))
}

/// The file behind an option, and how many arguments these are, or `None` if the arguments do not begin with it.
fn parse_file<'a>(
    arguments: &'a [String],
    option: &str,
) -> Result<(Option<&'a str>, usize), Failure>
    ensures file { IfOk result (λ (file, count). AreBehindFile option.now
        (map string_bytes arguments.now) (option_map (λ f. f.now) file)
        (drop count (map string_bytes arguments.now))) }
    ensures within { IfOk result (λ (_, count). count ≤ length arguments.now) }
    ensures usage { IfErr result (λ e. (file : Option (List ℕ)) (behind : List (List ℕ)) →
        ¬ AreBehindFile option.now (map string_bytes arguments.now) file behind) }
    ensures failure { IfErr result (λ e. e ≡ Failure.Usage) }
{
    let Some((first, rest)) = arguments.split_first() else {
        return Ok((None, 0));
    };
    if first.as_str() != option {
        return Ok((None, 0));
    }
    match rest.split_first() {
        None => Err(Failure::Usage),
        Some((file, _)) => Ok((Some(file.as_str()), 2)),
    }
}

/// The lookahead of so many views.
pub fn lookahead(ahead: u64) -> Lookahead
    ensures { result ≡ lookahead_of ahead }
{
    let views = ahead.min(u64::from(u32::MAX)).max(1) as u32;
    Lookahead {
        term_length: TermLength::new(views),
        optimistic_views: ViewDelta::new(ahead),
    }
}
