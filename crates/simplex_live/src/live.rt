//! `audit_live` as a function over its arguments, its files and its streams.

ghost use Rattle.std.specs.Prelude.{◌≡◌, ◌≢◌, false, Err, IfErr, IfOk, IfSome, IsTrue, OnErr, map, string_bytes};
ghost use Rattle.std.specs.IoError.{error_kind};
ghost use Rattle.std.specs.Vec.Iter.{into_iter_items};
ghost use Rattle.simplex_audit.specs.Outcome.{reader_use, writer_use};
ghost use Rattle.simplex_cli.specs.Arguments.{words_of};
ghost use Rattle.simplex_cli.specs.Status.{number_of};
ghost use Rattle.simplex_live.specs.Ending.{AskForText, BehindEnd, IsQuestion, HearingEnds, LiveEnding, LiveEnds, WordsEnd, status_of_live};
ghost use Rattle.simplex_stream.specs.Watched.{has_failed};

use crate::complaints::{Trouble, complain, say_number};
use crate::judging::{Inputs, Judging};
use crate::keeping::Keeper;
use crate::key_file::words_of_file;
use crate::listening::{Totals, begin, listen, resume};
use crate::options::{Options, parse_options};
use crate::store::{Store, look};
use crate::texts::{HELP, USAGE, VERSION};
use crate::words::wrong_word;
use itoa::Buffer;
use simplex_audit::audit::Watched;
use simplex_audit::basis::Audited;
use simplex_audit::run::write_text;
use simplex_cli::arguments::parse_committees;
use simplex_cli::command::say;
use simplex_cli::naming::Named;
use simplex_cli::start::{no_arguments, without_name};
use simplex_cli::status::{Failure, Status};
use simplex_cli::verdicts::{SignatureSize, parse_verdicts};
use simplex_scheme::scheme::{Listing, Sha256Digest};
use simplex_schemes::plain::Plain;
use simplex_schemes::vouched::{Role48, Role64, Role96, Vouched};
use std::alloc::Global;
use std::env::Args;
use std::fs::{File, Files};
use std::io;
use std::io::{ErrorKind, Read, Write};

/// Listens as the options say under the committees that texts name: those of the words behind what the scheme has in common.
fn hear<S: Named + Listing<Sha256Digest>, F: Files<File = File>, R: Read, W: Write, E: Write>(
    alloc: Global,
    files: &F,
    options: &Options<'_>,
    words: &[String],
    common: &S::Common,
    texts: &[String],
    input: &mut Watched<R>,
    output: &mut Watched<W>,
    errors: &mut Watched<E>,
) -> Result<Totals, Trouble>
    requires input_well { has_failed input.old ≡ false }
    requires output_well { has_failed output.old ≡ false }
    ensures ends { HearingEnds ⟦<S as Audited<Sha256Digest>>⟧.basis (λ bytes. bytes)
        (S.naming common.now) (map string_bytes texts.now) options.now
        (reader_use R.remaining input.old input.new)
        (writer_use W.contents output.old output.new) result }
    ensures read_failed { IsTrue (has_failed input.new) → result ≡ Err (Trouble.Run Failure.Read) }
    ensures write_failed { IsTrue (has_failed output.new) → result ≡ Err (Trouble.Run Failure.Write) }
{
    let committees = match parse_committees::<S>(alloc, common, texts) {
        Ok(committees) => committees,
        Err(Failure::Usage) => return Err(wrong_word::<S>(alloc, words, common, texts)),
        Err(failure) => return Err(Trouble::Run(failure)),
    };
    let Some(path) = options.state else {
        let monitor = begin::<S, Sha256Digest>(alloc, &committees, options);
        let mut keeper = Keeper::<F, E>::new(alloc, None, errors, 0, 0);
        return listen(alloc, monitor, &mut keeper, 0, 0, input, output);
    };
    let (store, recovered) = Store::take(alloc, files, path, words)?;
    let monitor = resume::<S, Sha256Digest>(alloc, &committees, options, &recovered)?;
    let (skipped, base) = (recovered.held.len(), recovered.covers());
    let mut keeper = Keeper::new(alloc, Some(store), errors, base, skipped);
    listen(alloc, monitor, &mut keeper, skipped, base, input, output)
}

/// Listens as the options and the words behind them say: a namespace and keys, or `--verdicts`, a size and numbers.
fn hear_words<F: Files<File = File>, R: Read, W: Write, E: Write>(
    alloc: Global,
    files: &F,
    options: &Options<'_>,
    words: &[String],
    input: &mut Watched<R>,
    output: &mut Watched<W>,
    errors: &mut Watched<E>,
) -> Result<Totals, Trouble>
    requires input_well { has_failed input.old ≡ false }
    requires output_well { has_failed output.old ≡ false }
    ensures ends { WordsEnd ⟦<Inputs as Judging>⟧.bases
        (map string_bytes words.now) options.now
        (reader_use R.remaining input.old input.new)
        (writer_use W.contents output.old output.new) result }
    ensures read_failed { IsTrue (has_failed input.new) → result ≡ Err (Trouble.Run Failure.Read) }
    ensures write_failed { IsTrue (has_failed output.new) → result ≡ Err (Trouble.Run Failure.Write) }
{
    let Some((namespace, texts)) = words.split_first() else {
        return Err(Trouble::Committees);
    };
    let Ok((size, count)) = parse_verdicts(words) else {
        return Err(Trouble::Size);
    };
    let counts = &words[count..];
    match size {
        None => {
            hear::<Plain, F, R, W, E>(
                alloc, files, options, words, namespace, texts, input, output, errors,
            )
        }
        Some(SignatureSize::Bytes48) => {
            hear::<Vouched<Role48, 49>, F, R, W, E>(
                alloc,
                files,
                options,
                words,
                &(),
                counts,
                input,
                output,
                errors,
            )
        }
        Some(SignatureSize::Bytes64) => {
            hear::<Vouched<Role64, 65>, F, R, W, E>(
                alloc,
                files,
                options,
                words,
                &(),
                counts,
                input,
                output,
                errors,
            )
        }
        Some(SignatureSize::Bytes96) => {
            hear::<Vouched<Role96, 97>, F, R, W, E>(
                alloc,
                files,
                options,
                words,
                &(),
                counts,
                input,
                output,
                errors,
            )
        }
    }
}

/// Listens as the options say, and the words behind them with those of the file of keys.
fn hear_options<F: Files<File = File>, R: Read, W: Write, E: Write>(
    alloc: Global,
    files: &F,
    options: &Options<'_>,
    behind: &[String],
    input: &mut Watched<R>,
    output: &mut Watched<W>,
    errors: &mut Watched<E>,
) -> Result<Totals, Trouble>
    requires input_well { has_failed input.old ≡ false }
    requires output_well { has_failed output.old ≡ false }
    ensures ends { BehindEnd ⟦<Inputs as Judging>⟧.bases
        (map string_bytes behind.now) options.now
        (reader_use R.remaining input.old input.new)
        (writer_use W.contents output.old output.new) result }
    ensures read_failed { IsTrue (has_failed input.new) → result ≡ Err (Trouble.Run Failure.Read) }
    ensures write_failed { IsTrue (has_failed output.new) → result ≡ Err (Trouble.Run Failure.Write) }
{
    let Some(path) = options.keys else {
        return hear_words(alloc, files, options, behind, input, output, errors);
    };
    let named = words_of_file(alloc, files, path, behind)?;
    hear_words(
        alloc,
        files,
        options,
        named.as_slice(),
        input,
        output,
        errors,
    )
}

/// What words can ask for.
enum Question {
    /// How the program is used.
    Help,
    /// Its version.
    Version,
    /// How many bytes of the input a state covers.
    Covers,
}

/// What a word asks for, if it does.
fn question_of(word: &str) -> Option<Question>
    ensures { IfSome result (λ _. IsQuestion word.now) }
{
    match word {
        "--help" => Some(Question::Help),
        "--version" => Some(Question::Version),
        "--covers" => Some(Question::Covers),
        _ => None,
    }
}

/// The text that is asked for, with these words behind the question.
fn answer<F: Files<File = File>>(
    alloc: Global,
    files: &F,
    question: Question,
    behind: &[String],
) -> Result<String, Trouble> {
    match question {
        Question::Help => {
            let mut text = String::from_str(alloc, USAGE)?;
            text.push_str(HELP)?;
            Ok(text)
        }
        Question::Version => Ok(String::from_str(alloc, VERSION)?),
        Question::Covers => {
            let Some((path, _)) = behind.split_first() else {
                return Err(Trouble::Usage);
            };
            let covers = look(alloc, files, path.as_str(), None)?.covers();
            let mut text = String::from_str(alloc, Buffer::new().format(covers))?;
            text.push_str("\n")?;
            Ok(text)
        }
    }
}

/// The text that words ask for by their first one. `None` if they ask for none.
fn asked<F: Files<File = File>>(
    alloc: Global,
    files: &F,
    words: &[String],
) -> Result<Option<String>, Trouble>
    ensures asks { IfOk result (λ text. IfSome text (λ _. AskForText (map string_bytes words.now))) }
    ensures failed { OnErr result (AskForText (map string_bytes words.now)) }
{
    let Some((first, behind)) = words.split_first() else {
        return Ok(None);
    };
    let Some(question) = question_of(first.as_str()) else {
        return Ok(None);
    };
    Ok(Some(answer(alloc, files, question, behind)?))
}

/// Does what the words say. `None` if they ask for a text, which is written then.
fn live<F: Files<File = File>, R: Read, W: Write, E: Write>(
    alloc: Global,
    files: &F,
    words: &[String],
    input: &mut Watched<R>,
    output: &mut Watched<W>,
    errors: &mut Watched<E>,
) -> Result<Option<Totals>, Trouble>
    requires input_well { has_failed input.old ≡ false }
    requires output_well { has_failed output.old ≡ false }
    ensures ends { LiveEnds ⟦<Inputs as Judging>⟧.bases
        (map string_bytes words.now)
        (reader_use R.remaining input.old input.new)
        (writer_use W.contents output.old output.new) result }
    ensures read_failed { IsTrue (has_failed input.new) → result ≡ Err (Trouble.Run Failure.Read) }
    ensures write_failed { IsTrue (has_failed output.new) → result ≡ Err (Trouble.Run Failure.Write) }
{
    if let Some(text) = asked(alloc, files, words)? {
        write_text(output, text.as_bytes())?;
        return Ok(None);
    }
    let Ok((options, count)) = parse_options(words) else {
        return Err(Trouble::Usage);
    };
    let totals = hear_options(
        alloc,
        files,
        &options,
        &words[count..],
        input,
        output,
        errors,
    )?;
    Ok(Some(totals))
}

/// Says what was heard.
fn sum_up<E: Write>(errors: &mut Watched<E>, totals: &Totals) {
    say(errors, b"audit_live: ");
    say_number(errors, totals.read as u64);
    say(errors, b" messages read, ");
    say_number(errors, totals.votes as u64);
    say(errors, b" votes recorded, ");
    say_number(errors, totals.below);
    say(errors, b" messages below the window, ");
    say_number(errors, totals.above);
    say(errors, b" above it\n");
    if let Some(fault) = totals.fault {
        say(errors, b"audit_live: fault at byte ");
        say_number(errors, fault.place as u64);
        say(errors, b"\n");
    }
}

/// Says how a run ended, and returns its status.
fn conclude<E: Write>(errors: &mut Watched<E>, ended: Result<Option<Totals>, Trouble>) -> Status
    ensures { result ≡ status_of_live ended }
{
    match ended {
        Ok(None) => Status::Whole,
        Ok(Some(totals)) => {
            sum_up(errors, &totals);
            match totals.fault {
                None => Status::Whole,
                Some(_) => Status::Fault,
            }
        }
        Err(trouble) => {
            complain(errors, trouble);
            trouble.status()
        }
    }
}

/// Runs `audit_live` over the arguments that its process is given, the program's name first, its files and its three streams,
/// and returns the number that the process ends with: 0 if all was read, 1 at a fault of the input, 2 for wrong arguments, and
/// 3 if a device or an allocation failed.
pub fn start_live<F: Files<File = File>, R: Read, W: Write, E: Write>(
    alloc: Global,
    files: &F,
    given: io::Result<Args>,
    input: &mut Watched<R>,
    output: &mut Watched<W>,
    errors: &mut Watched<E>,
) -> u8
    requires input_well { has_failed input.old ≡ false }
    requires output_well { has_failed output.old ≡ false }
    ensures ends { IfOk given (λ given. (ending : LiveEnding)
        × (result ≡ number_of (status_of_live ending))
        × LiveEnds ⟦<Inputs as Judging>⟧.bases (words_of (into_iter_items given))
        (reader_use R.remaining input.old input.new)
        (writer_use W.contents output.old output.new) ending) }
    // If the input or the output failed, the number is 3.
    ensures read_failed { IsTrue (has_failed input.new) → result ≡ 3 }
    ensures write_failed { IsTrue (has_failed output.new) → result ≡ 3 }
    // If the arguments cannot be read, it is 3 after an allocation failure, else 2.
    ensures memory { IfErr given (λ error. error_kind error ≡ ErrorKind.OutOfMemory → result ≡ 3) }
    ensures usage { IfErr given (λ error. error_kind error ≢ ErrorKind.OutOfMemory → result ≡ 2) }
    ensures unused { OnErr given ((input.new ≡ input.old) × (output.new ≡ output.old)) }
{
    let given = match given {
        Ok(given) => given,
        Err(error) => return conclude(errors, Err(Trouble::Run(no_arguments(&error)))).number(),
    };
    match without_name(alloc, given) {
        Ok(words) => {
            let ended = live(alloc, files, words.as_slice(), input, output, errors);
            conclude(errors, ended).number()
        }
        Err(_) => conclude(errors, Err(Trouble::Run(Failure::OutOfMemory))).number(),
    }
}
