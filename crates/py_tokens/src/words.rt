//! Keywords, and the words that may stand directly behind a number.
ghost use Rattle.std.specs.Prelude.{◌≡◌, ◌∷◌, [], bytes_eq};
ghost use Rattle.py_tokens.specs.Words.{is_keyword, is_one_of, false_to_break, class_to_for, from_to_not, or_to_yield, joining_words, word_kind, is_glued};

use crate::chars::{Class, char_at, has, run_len};
use crate::kinds::TokenKind;

fn is_word(text: &[char], word: &[char]) -> bool
    ensures { result ≡ bytes_eq word.now text.now }
{
    word == text
}

fn is_in_false_to_break(text: &[char]) -> bool
    ensures { result ≡ is_one_of false_to_break text.now }
{
    is_word(text, &['F', 'a', 'l', 's', 'e'])
        || is_word(text, &['N', 'o', 'n', 'e'])
        || is_word(text, &['T', 'r', 'u', 'e'])
        || is_word(text, &['a', 'n', 'd'])
        || is_word(text, &['a', 's'])
        || is_word(text, &['a', 's', 's', 'e', 'r', 't'])
        || is_word(text, &['a', 's', 'y', 'n', 'c'])
        || is_word(text, &['a', 'w', 'a', 'i', 't'])
        || is_word(text, &['b', 'r', 'e', 'a', 'k'])
}

fn is_in_class_to_for(text: &[char]) -> bool
    ensures { result ≡ is_one_of class_to_for text.now }
{
    is_word(text, &['c', 'l', 'a', 's', 's'])
        || is_word(text, &['c', 'o', 'n', 't', 'i', 'n', 'u', 'e'])
        || is_word(text, &['d', 'e', 'f'])
        || is_word(text, &['d', 'e', 'l'])
        || is_word(text, &['e', 'l', 'i', 'f'])
        || is_word(text, &['e', 'l', 's', 'e'])
        || is_word(text, &['e', 'x', 'c', 'e', 'p', 't'])
        || is_word(text, &['f', 'i', 'n', 'a', 'l', 'l', 'y'])
        || is_word(text, &['f', 'o', 'r'])
}

fn is_in_from_to_not(text: &[char]) -> bool
    ensures { result ≡ is_one_of from_to_not text.now }
{
    is_word(text, &['f', 'r', 'o', 'm'])
        || is_word(text, &['g', 'l', 'o', 'b', 'a', 'l'])
        || is_word(text, &['i', 'f'])
        || is_word(text, &['i', 'm', 'p', 'o', 'r', 't'])
        || is_word(text, &['i', 'n'])
        || is_word(text, &['i', 's'])
        || is_word(text, &['l', 'a', 'm', 'b', 'd', 'a'])
        || is_word(text, &['n', 'o', 'n', 'l', 'o', 'c', 'a', 'l'])
        || is_word(text, &['n', 'o', 't'])
}

fn is_in_or_to_yield(text: &[char]) -> bool
    ensures { result ≡ is_one_of or_to_yield text.now }
{
    is_word(text, &['o', 'r'])
        || is_word(text, &['p', 'a', 's', 's'])
        || is_word(text, &['r', 'a', 'i', 's', 'e'])
        || is_word(text, &['r', 'e', 't', 'u', 'r', 'n'])
        || is_word(text, &['t', 'r', 'y'])
        || is_word(text, &['w', 'h', 'i', 'l', 'e'])
        || is_word(text, &['w', 'i', 't', 'h'])
        || is_word(text, &['y', 'i', 'e', 'l', 'd'])
}

fn is_in_joining_words(text: &[char]) -> bool
    ensures { result ≡ is_one_of joining_words text.now }
{
    is_word(text, &['a', 'n', 'd'])
        || is_word(text, &['e', 'l', 's', 'e'])
        || is_word(text, &['f', 'o', 'r'])
        || is_word(text, &['i', 'f'])
        || is_word(text, &['i', 'n'])
        || is_word(text, &['i', 's'])
        || is_word(text, &['n', 'o', 't'])
        || is_word(text, &['o', 'r'])
}

#[tactic(auto, unfolding(crate::specs::Words::is_keyword))]
pub fn is_keyword(text: &[char]) -> bool
    ensures { result ≡ is_keyword text.now }
{
    is_in_false_to_break(text)
        || is_in_class_to_for(text)
        || is_in_from_to_not(text)
        || is_in_or_to_yield(text)
}

pub fn word_kind(text: &[char]) -> TokenKind
    ensures { result ≡ word_kind text.now }
{
    if is_keyword(text) {
        TokenKind::Keyword
    } else {
        TokenKind::Name
    }
}

/// Whether a character of a name stands at the front, and the word there may not follow a number.
#[tactic(auto, using(crate::proofs::Runs::run_is))]
pub fn is_glued(text: &[char]) -> bool
    ensures { result ≡ is_glued text.now }
{
    if !has(Class::NamePart, char_at(text, 0)) {
        return false;
    }
    let len = run_len(text, Class::NamePart);
    !is_in_joining_words(&text[..len])
}
