ghost use Rattle.std.specs.Prelude.{◌≡◌, ◌||◌, ◌∷◌, ◌+◌, ℕ, List, IfOk, IfErr, IsOkUnless, None, OnOk, bytes_eq, option_to_list};
ghost use Rattle.svid_keys.specs.Table.{IsTableRefusal, is_among, lines_fault, question_in, questions_in, table_fault, table_says};

use crate::digits::question_in;
use crate::jwt_key::JwtKey;
use crate::lines::Lines;
use crate::questions::question;
use crate::table_fault::TableFault;
use crate::verifier::Verifier;
use std::alloc::{AllocError, Global};
use std::collections::BTreeSet;
use std::marker::Model;
use svid_token::Alg;

/// A verifier that says yes exactly to the questions of a table, which an outside program wrote.
///
/// Contracts see it as the list of its questions.
#[derive(Debug, Drop)]
pub struct TableVerifier {
    questions: BTreeSet<[u8; 32]>,
}

impl Model for TableVerifier {
    ghost use Rattle.std.specs.Prelude.{ℕ, List};

    ghost Value = { List (List ℕ) };

    ghost view = { λ table. table.questions.keys };
}

impl TableVerifier {
    /// Reads a table: each line is a question, as 64 hexadecimal digits of either case, or empty.
    ///
    /// `Line` tells the first line that is neither, counted from 1; `OutOfMemory`, that there was
    /// no memory. Lines are those of [`Lines`].
    pub fn read(alloc: Global, text: &[u8]) -> Result<TableVerifier, TableFault>
        ensures value { IfOk result (λ table. (question : List ℕ) → is_among question table ≡ is_among question (questions_in text.now)) }
        ensures accepted { OnOk result (table_fault text.now ≡ None) }
        ensures fault { IfErr result (IsTableRefusal (table_fault text.now)) }
        ensures only { table_fault text.now ≡ None → IsOkUnless result TableFault.OutOfMemory }
    {
        let questions = read_lines(alloc, text)?;
        Ok(TableVerifier { questions })
    }
}

impl Verifier for TableVerifier {
    ghost use Rattle.svid_keys.specs.Table.{table_says};

    ghost says = { table_says };

    #[tactic(auto, using(crate::proofs::TableLemmas::is_among_keys))]
    fn verify(&self, key: &JwtKey, alg: Alg, input: &[u8], signature: &[u8]) -> bool {
        // (A table with no questions says no to all, so nothing is hashed for it.)
        if self.questions.is_empty() {
            return false;
        }
        self.questions
            .contains(&question(key, alg, input, signature))
    }
}

// The questions of all lines of a table.
fn read_lines(alloc: Global, text: &[u8]) -> Result<BTreeSet<[u8; 32]>, TableFault>
    ensures value { IfOk result (λ set. (question : List ℕ) → is_among question set.keys ≡ is_among question (questions_in text.now)) }
    ensures accepted { OnOk result (table_fault text.now ≡ None) }
    ensures fault { IfErr result (IsTableRefusal (table_fault text.now)) }
{
    let mut questions = BTreeSet::new(alloc);
    let mut number = 0;
    for line in Lines::of(text) {
        number += 1;
        add_line(&mut questions, line, number)?;
    }
    Ok(questions)
}

// Adds the question that a line is, if it is not empty.
fn add_line(
    questions: &mut BTreeSet<[u8; 32]>,
    line: &[u8],
    number: usize,
) -> Result<(), TableFault>
    ensures added { OnOk result ((question : List ℕ) → is_among question questions.new.keys
        ≡ (is_among question questions.old.keys || is_among question (option_to_list (question_in line.now)))) }
    ensures accepted { OnOk result ((lines : List (List ℕ)) → lines_fault number (line.now ∷ lines) ≡ lines_fault (number + 1) lines) }
    ensures fault { IfErr result (λ fault. (lines : List (List ℕ)) → IsTableRefusal (lines_fault number (line.now ∷ lines)) fault) }
{
    if line.is_empty() {
        return Ok(());
    }
    let Some(question) = question_in(line) else {
        return Err(TableFault::Line(number));
    };
    add_question(questions, question)?;
    Ok(())
}

// Adds a question, which may be there already.
fn add_question(questions: &mut BTreeSet<[u8; 32]>, question: [u8; 32]) -> Result<(), AllocError>
    ensures { OnOk result ((q : List ℕ) → is_among q questions.new.keys
        ≡ (is_among q questions.old.keys || bytes_eq q question)) }
{
    questions.insert(question)?;
    Ok(())
}
