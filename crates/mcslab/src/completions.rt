//! Completions of the command line for shells, by the program's own description of it.
use crate::command_line::{commands, with};
use crate::compilation::write_whole;
use clap::builder::ValueParser;
use clap::{Arg, ArgMatches, Command as Words, Error};
use std::alloc::Global;
use std::io::{self, Write};
use std::process::ExitCode;

/// A shell.
#[derive(Clone, Copy)]
pub enum Shell {
    Bash,
    Zsh,
    Fish,
}

/// The names of the shells; for any other the command line is refused.
const SHELLS: &[&str] = &["bash", "zsh", "fish"];

/// Returns the argument for the shell.
fn shell_arg<'a>(alloc: Global) -> Arg<'a> {
    Arg::new(alloc, "SHELL")
        .help("The shell")
        .required(true)
        .value_parser(SHELLS)
}

/// Returns the command `completions` without its argument.
fn words<'a>(alloc: Global) -> Words<'a> {
    Words::new(alloc, "completions").about("Writes completions of the command line for a shell")
}

/// Returns the command `completions` for the parser of the command line.
pub fn command<'a>(alloc: Global) -> Result<Words<'a>, Error> {
    with(Ok(words(alloc)), shell_arg(alloc))
}

/// Returns what the words of the command line ask for.
pub fn asked(found: &ArgMatches<'_>) -> Shell {
    match found.get_str("SHELL") {
        Some("zsh") => Shell::Zsh,
        Some("fish") => Shell::Fish,
        _ => Shell::Bash,
    }
}

/// Returns the values that an argument may have, if these are some words.
fn values_of<'a>(arg: &Arg<'a>) -> Option<&'a [&'a str]> {
    match arg.get_value_parser() {
        ValueParser::Names(names) => Some(names),
        _ => None,
    }
}

/// Returns the byte to write for a byte of a text in single quotes, and in brackets in zsh.
fn quoted(byte: u8) -> u8 {
    match byte {
        b'\'' => b'`',
        b'[' => b'(',
        b']' => b')',
        _ => byte,
    }
}

/// Writes the description of a command or of an option, quoted.
fn put_about<W: Write>(to: &mut W, about: Option<&str>) -> io::Result<()> {
    for byte in about.unwrap_or("").as_bytes() {
        to.write_all(&[quoted(*byte)])?;
    }
    Ok(())
}

/// Writes words, with a blank after each.
fn put_words<W: Write>(to: &mut W, words: &[&str]) -> io::Result<()> {
    for word in words {
        write!(to, "{word} ")?;
    }
    Ok(())
}

/// Writes the words that may follow a command in bash: its options, and values of its arguments.
fn put_bash_words<W: Write>(to: &mut W, command: &Words<'_>) -> io::Result<()> {
    for arg in command.get_arguments() {
        if let Some(long) = arg.get_long() {
            write!(to, "--{long} ")?;
        }
        if let Some(values) = values_of(arg) {
            put_words(to, values)?;
        }
    }
    to.write_all(b"--help")
}

/// Writes the completions for bash.
fn put_bash<W: Write>(to: &mut W, program: &Words<'_>) -> io::Result<()> {
    to.write_all(BASH_HEAD.as_bytes())?;
    for command in program.get_subcommands() {
        let name = command.get_name();
        write!(to, "{name} ")?;
    }
    to.write_all(BASH_MIDDLE.as_bytes())?;
    for command in program.get_subcommands() {
        let name = command.get_name();
        write!(to, "            {name}) words='")?;
        put_bash_words(to, command)?;
        to.write_all(b"' ;;\n")?;
    }
    to.write_all(BASH_TAIL.as_bytes())
}

/// The completions for bash before the names of the commands.
const BASH_HEAD: &str = "\
# Completions of mcslab for bash, by `mcslab completions bash`.
_mcslab() {
    local word=${COMP_WORDS[COMP_CWORD]} words=
    if [ \"$COMP_CWORD\" -eq 1 ]; then
        words='";

/// The completions for bash between the names of the commands and their options.
const BASH_MIDDLE: &str = "\
--help --version'
    else
        case ${COMP_WORDS[1]} in
";

/// The end of the completions for bash: if nothing matches, it completes files.
const BASH_TAIL: &str = "        esac
    fi
    COMPREPLY=($(compgen -W \"$words\" -- \"$word\"))
    if [ \"$COMP_CWORD\" -gt 1 ] && [ \"${word#-}\" = \"$word\" ]; then
        COMPREPLY+=($(compgen -f -- \"$word\"))
    fi
}
complete -o filenames -F _mcslab mcslab
";

/// Writes the values of an argument for zsh: its possible words, a file or a number.
fn put_zsh_values<W: Write>(to: &mut W, arg: &Arg<'_>) -> io::Result<()> {
    if let Some(values) = values_of(arg) {
        to.write_all(b":value:(")?;
        put_words(to, values)?;
        return to.write_all(b")");
    }
    if arg.is_positional() {
        return to.write_all(b":file:_files");
    }
    to.write_all(b":value: ")
}

/// Writes an argument for zsh.
fn put_zsh_arg<W: Write>(to: &mut W, arg: &Arg<'_>) -> io::Result<()> {
    to.write_all(b" '")?;
    if let Some(long) = arg.get_long() {
        write!(to, "--{long}[")?;
        put_about(to, arg.get_help())?;
        to.write_all(b"]")?;
    }
    if arg.get_action().takes_values() {
        put_zsh_values(to, arg)?;
    }
    to.write_all(b"'")
}

/// Writes the completions for zsh.
fn put_zsh<W: Write>(to: &mut W, program: &Words<'_>) -> io::Result<()> {
    to.write_all(ZSH_HEAD.as_bytes())?;
    for command in program.get_subcommands() {
        let name = command.get_name();
        write!(to, "        '{name}:")?;
        put_about(to, command.get_about())?;
        to.write_all(b"'\n")?;
    }
    to.write_all(ZSH_MIDDLE.as_bytes())?;
    for command in program.get_subcommands() {
        let name = command.get_name();
        write!(to, "        {name}) _arguments '--help[Shows help]'")?;
        for arg in command.get_arguments() {
            put_zsh_arg(to, arg)?;
        }
        to.write_all(b" ;;\n")?;
    }
    to.write_all(ZSH_TAIL.as_bytes())
}

/// The completions for zsh before the commands.
const ZSH_HEAD: &str = "\
#compdef mcslab
# Completions of mcslab for zsh, by `mcslab completions zsh`.
_mcslab() {
    local -a commands
    commands=(
";

/// The completions for zsh between the commands and their options.
const ZSH_MIDDLE: &str = "    )
    if (( CURRENT == 2 )); then
        _describe command commands
        return
    fi
    local command=$words[2]
    shift words
    (( CURRENT-- ))
    case $command in
";

/// The end of the completions for zsh.
const ZSH_TAIL: &str = "    esac
}
if [ \"$funcstack[1]\" = _mcslab ]; then
    _mcslab \"$@\"
else
    compdef _mcslab mcslab
fi
";

/// Writes an option of a command, or the values of its argument, for fish.
fn put_fish_arg<W: Write>(to: &mut W, name: &str, arg: &Arg<'_>) -> io::Result<()> {
    write!(
        to,
        "complete -c mcslab -n '__fish_seen_subcommand_from {name}'"
    )?;
    if let Some(long) = arg.get_long() {
        write!(to, " -l {long}")?;
    }
    if let Some(values) = values_of(arg) {
        to.write_all(b" -f -a '")?;
        put_words(to, values)?;
        to.write_all(b"'")?;
    } else if arg.get_action().takes_values() {
        to.write_all(b" -r")?;
    }
    to.write_all(b" -d '")?;
    put_about(to, arg.get_help())?;
    to.write_all(b"'\n")
}

/// Writes the completions for fish.
fn put_fish<W: Write>(to: &mut W, program: &Words<'_>) -> io::Result<()> {
    to.write_all(b"# Completions of mcslab for fish, by `mcslab completions fish`.\n")?;
    for command in program.get_subcommands() {
        let name = command.get_name();
        write!(
            to,
            "complete -c mcslab -n __fish_use_subcommand -f -a {name} -d '"
        )?;
        put_about(to, command.get_about())?;
        to.write_all(b"'\n")?;
        for arg in command.get_arguments() {
            if arg.get_long().is_some() || values_of(arg).is_some() {
                put_fish_arg(to, name, arg)?;
            }
        }
    }
    Ok(())
}

/// Writes the completions for a shell.
fn put<W: Write>(to: &mut W, shell: Shell, program: &Words<'_>) -> io::Result<()> {
    match shell {
        Shell::Bash => put_bash(to, program),
        Shell::Zsh => put_zsh(to, program),
        Shell::Fish => put_fish(to, program),
    }
}

/// Writes completions, and returns the exit status.
pub fn write_completions(rt: &HostRuntime, shell: Shell) -> Result<ExitCode, Error> {
    let program = commands(rt.alloc())?;
    let mut text = Vec::new(rt.alloc());
    let made = put(&mut text, shell, &program);
    Ok(write_whole(rt, made, &text))
}
