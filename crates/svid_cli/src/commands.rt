//! The commands and their arguments, with the text of help for each.

use crate::argument::Argument;
use crate::form::Form;
use crate::subcommand::Subcommand;
use clap::Command;
use std::alloc::{AllocError, Global};

// The version of the program, and the kit that proves and builds it.
const VERSION: &str = "3.0.0 (rattle-kit-13f logic dac8208d650f15bf)";

const TEXT: Argument = Argument {
    name: "text",
    alias: None,
    value: "TEXT",
    form: Form::Word,
    required: true,
    help: "The text to read, byte for byte",
};

// The files of messages that a command joins.
const FILES: Argument = Argument {
    name: "file",
    alias: None,
    value: "FILE",
    form: Form::Words(0),
    required: false,
    help: "Files of messages; standard input if you name none",
};

// The moment to which a record is advanced.
const RAISED_TO: Argument = Argument {
    name: "now",
    alias: None,
    value: "N",
    form: Form::Number,
    required: false,
    help: "Advance the record's clock to N, in seconds since 1970, and drop what has expired by then",
};

const SUMMARY: Argument = Argument {
    name: "summary",
    alias: None,
    value: "FILE",
    form: Form::Named,
    required: true,
    help: "The file with the other validator's summary",
};

const BUNDLES: Argument = Argument {
    name: "bundles",
    alias: None,
    value: "FILE",
    form: Form::Named,
    required: true,
    help: "A file of trust bundles, as JSON",
};

const TRUST_DOMAIN: Argument = Argument {
    name: "trust-domain",
    alias: None,
    value: "NAME",
    form: Form::Named,
    required: false,
    help: "The trust domain whose bundle the file of --bundles is, as SPIRE prints it; else it has the bundles of each by name",
};

const TABLE: Argument = Argument {
    name: "table",
    alias: None,
    value: "FILE",
    form: Form::Named,
    required: true,
    help: "A file of the questions that your verifier answered with yes",
};

// The moment of the checks.
const NOW: Argument = Argument {
    name: "now",
    alias: None,
    value: "N",
    form: Form::Number,
    required: true,
    help: "The current time, in seconds since 1970",
};

const VALIDATOR_ID: Argument = Argument {
    name: "validator-id",
    alias: Some("place"),
    value: "ID",
    form: Form::Named,
    required: true,
    help: "The ID of this validator: 32 hexadecimal digits that no other validator has",
};

const RECORD: Argument = Argument {
    name: "record",
    alias: None,
    value: "FILE",
    form: Form::Repeated,
    required: false,
    help: "A file of messages to begin with, such as an earlier --out; you may name several",
};

const OUT: Argument = Argument {
    name: "out",
    alias: None,
    value: "FILE",
    form: Form::Named,
    required: false,
    help: "The file to write the record to, after the last check",
};

const LONGEST: Argument = Argument {
    name: "longest",
    alias: None,
    value: "N",
    form: Form::Number,
    required: false,
    help: "Refuse a token that expires more than N seconds after --now, or after the record's clock if that is later",
};

const AUDIENCES: Argument = Argument {
    name: "audience",
    alias: None,
    value: "AUD",
    form: Form::Words(1),
    required: true,
    help: "Your audiences: a token must name one of them",
};

const IN_JSON: Argument = Argument {
    name: "json",
    alias: None,
    value: "",
    form: Form::Flag,
    required: false,
    help: "Print a list of JSON objects with the members number, name and sentence",
};

// Every command has it.
const EXPLAIN: Argument = Argument {
    name: "explain",
    alias: None,
    value: "",
    form: Form::Flag,
    required: false,
    help: "Behind a fault line on standard error, say in words what is wrong and what to do",
};

static COMMANDS: [Subcommand; 8] = [
    Subcommand {
        name: "check",
        help: "svid check --help",
        about: "Check each token on standard input, and print whether it is accepted or why not",
        after_help: "Each line of standard input that is not empty is a token; svid reads to the end.{n}{n}--record and --out may name the same file. svid replaces that file as a whole before it prints the first line, and leaves it as it was if the check fails. If two checks run at once with the same --out, the uses of one are lost. svid reads an empty file as an empty record, and does not notice when a record was cut off at the end of a message.{n}{n}Exit status: 0 svid accepted every token; 1 it refused a token or an input; 2 a usage error, a bad --validator-id, a file that does not open, a failed write or out of memory.",
        arguments: &[
            BUNDLES,
            TRUST_DOMAIN,
            TABLE,
            NOW,
            VALIDATOR_ID,
            RECORD,
            OUT,
            LONGEST,
            AUDIENCES,
        ],
    },
    Subcommand {
        name: "id",
        help: "svid id --help",
        about: "Print the trust domain and path of a SPIFFE ID, or why a text is not one",
        after_help: "svid id does not read standard input.{n}{n}Exit status: 0 the text is a SPIFFE ID; 1 it is not; 2 a usage error, a failed write or out of memory.",
        arguments: &[TEXT],
    },
    Subcommand {
        name: "report",
        help: "svid report --help",
        about: "Print the uses in the combined record, and the keys that were used twice",
        after_help: "If you name no FILE, svid reads messages from standard input, to its end.{n}{n}The page dist/svid.html of the sources shows the same in a browser.{n}{n}Exit status: 0 svid printed the report; 1 it refused an input; 2 a usage error, a file that does not open, a failed write or out of memory.",
        arguments: &[RAISED_TO, FILES],
    },
    Subcommand {
        name: "merge",
        help: "svid merge --help",
        about: "Combine the records of all inputs, and write the result",
        after_help: "If you name no FILE, svid reads messages from standard input, to its end.{n}{n}Never write to a file that you read: the shell empties it before svid runs, so `svid merge a b > a` loses a. Write to a new file, and move that. svid reads an empty file as an empty record, and does not notice when a record was cut off at the end of a message.{n}{n}Exit status: 0 svid wrote the record; 1 it refused an input; 2 a usage error, a file that does not open, a failed write or out of memory.",
        arguments: &[RAISED_TO, FILES],
    },
    Subcommand {
        name: "summary",
        help: "svid summary --help",
        about: "Write a summary of the combined record, for the `answer` of another validator",
        after_help: "If you name no FILE, svid reads messages from standard input, to its end.{n}{n}Exit status: 0 svid wrote the summary; 1 it refused an input; 2 a usage error, a file that does not open, a failed write or out of memory.",
        arguments: &[FILES],
    },
    Subcommand {
        name: "answer",
        help: "svid answer --help",
        about: "Write what a validator lacks, as its summary tells: all uses of the buckets that differ",
        after_help: "If you name no FILE, svid reads messages from standard input, to its end.{n}{n}Exit status: 0 svid wrote the answer; 1 it refused an input; 2 a usage error, a file that does not open, a failed write or out of memory.",
        arguments: &[SUMMARY, FILES],
    },
    Subcommand {
        name: "candidates",
        help: "svid candidates --help",
        about: "Print one question for each key that could have signed the token on standard input",
        after_help: "The token is the first line of standard input that is not empty; svid reads to the end.{n}{n}Exit status: 0 svid printed a question or more; 1 it refused the token or the bundles; 2 a usage error, a file that does not open, a failed write or out of memory.",
        arguments: &[BUNDLES, TRUST_DOMAIN],
    },
    Subcommand {
        name: "refusals",
        help: "svid refusals --help",
        about: "Print why tokens are refused, in the order in which a check looks for it",
        after_help: "svid refusals reads nothing. Each line has the number that the C library gives the refusal, its name as `svid check` prints it, and a sentence. Of two that hold for a token, a check prints the first.{n}{n}Exit status: 0 svid printed them; 2 a usage error, a failed write or out of memory.",
        arguments: &[IN_JSON],
    },
];

/// The program for clap.
pub fn command<'a>(alloc: Global) -> Result<Command<'a>, AllocError> {
    let mut svid = Command::new(alloc, "svid")
        .bin_name("svid")?
        .about("Check SPIFFE JWT-SVIDs, and keep the record of the tokens that were used")
        .after_help(
            "check and candidates read standard input; report, merge, summary and answer read it if you name no FILE.{n}{n}Exit status: 0 success; 1 svid refused a token or an input; 2 a usage error, a file that does not open, a failed write or out of memory.",
        )
        .version(VERSION)
        .subcommand_required(true)
        .arg(EXPLAIN.to_clap(alloc)?.global(true))?;
    for subcommand in &COMMANDS {
        svid = svid.subcommand(subcommand.to_clap(alloc)?)?;
    }
    Ok(svid)
}

/// The help that is nearest to these words of a command line: that of the command that they name, or else that of the program.
pub fn help_of(words: &[String]) -> &'static str {
    for word in words {
        for subcommand in &COMMANDS {
            if word.as_str() == subcommand.name {
                return subcommand.help;
            }
        }
    }
    "svid --help"
}
