ghost use Rattle.std.specs.Prelude.{◌≡◌, codes, map, OnOk};
ghost use Rattle.vc_script.specs.FirstWords.{answer_in, dictionary_spelling, object_spelling, one_dictionary_spelling};
ghost use Rattle.vc_script.specs.Table.{dictionary_rows};

use crate::byte_shape::{delete_words_in, object_word_in};
use crate::first_word::{DictionaryWord, ObjectWord, OneDictionary};
use crate::form::decoded;
use crate::name_word::some_name;
use crate::shape::{dict_in, method_in, name_in, view_in};
use crate::{Command, LineAnswer};
use std::alloc::Global;
use vc_base::OutOfMemory;

// The commands that dtrun has besides.
pub(crate) fn dictionary_answer(
    alloc: Global,
    first: DictionaryWord,
    others: &[&[u8]],
    asked: &mut LineAnswer,
) -> Result<(), OutOfMemory>
    ensures { OnOk result (asked.new
        ≡ answer_in dictionary_rows (dictionary_spelling first) (map (λ w. w.now) others.now)) }
{
    match first {
        DictionaryWord::Dict => dict_answer(others, asked),
        DictionaryWord::Delete => return delete_answer(alloc, others, asked),
        DictionaryWord::View => view_answer(others, asked),
        DictionaryWord::Method => method_answer(others, asked),
        DictionaryWord::Alone(word) => one_dictionary_answer(word, others, asked),
        DictionaryWord::Object(word) => return object_answer(alloc, word, others, asked),
    }
    Ok(())
}

#[inline(never)]
fn dict_answer(others: &[&[u8]], asked: &mut LineAnswer)
    ensures { asked.new
        ≡ answer_in dictionary_rows (codes "dict") (map (λ w. w.now) others.now) }
{
    match dict_in(others) {
        Ok((dict, method, region, kind)) => *asked = LineAnswer::Is(Command::OpenDict(
            dict.name(),
            method,
            region.name(),
            kind,
        )),
        Err(fault) => *asked = LineAnswer::Bad(fault),
    }
}

#[inline(never)]
fn delete_answer(alloc: Global, others: &[&[u8]], asked: &mut LineAnswer) -> Result<(), OutOfMemory>
    ensures { OnOk result (asked.new
        ≡ answer_in dictionary_rows (codes "delete") (map (λ w. w.now) others.now)) }
{
    match delete_words_in(others) {
        Ok((dict, object)) => match object {
            None => *asked = LineAnswer::Is(Command::Delete(dict.name(), None)),
            Some(object) => {
                let object = decoded(asked.take_room(alloc), object)?;
                *asked = LineAnswer::Is(Command::Delete(dict.name(), Some(object)));
            }
        },
        Err(fault) => *asked = LineAnswer::Bad(fault),
    }
    Ok(())
}

#[inline(never)]
fn view_answer(others: &[&[u8]], asked: &mut LineAnswer)
    ensures { asked.new
        ≡ answer_in dictionary_rows (codes "view") (map (λ w. w.now) others.now) }
{
    match view_in(others) {
        Ok((dict, viewed)) => *asked = LineAnswer::Is(Command::View(
            dict.name(),
            some_name(viewed),
        )),
        Err(fault) => *asked = LineAnswer::Bad(fault),
    }
}

#[inline(never)]
fn method_answer(others: &[&[u8]], asked: &mut LineAnswer)
    ensures { asked.new
        ≡ answer_in dictionary_rows (codes "method") (map (λ w. w.now) others.now) }
{
    match method_in(others) {
        Ok((dict, method)) => *asked = LineAnswer::Is(Command::Remethod(dict.name(), method)),
        Err(fault) => *asked = LineAnswer::Bad(fault),
    }
}

// `D`.
#[inline(never)]
fn one_dictionary_answer(first: OneDictionary, others: &[&[u8]], asked: &mut LineAnswer)
    ensures { asked.new
        ≡ answer_in dictionary_rows (one_dictionary_spelling first) (map (λ w. w.now) others.now) }
{
    match name_in(others) {
        Ok(dict) => {
            let dict = dict.name();
            match first {
                OneDictionary::First => *asked = LineAnswer::Is(Command::First(dict)),
                OneDictionary::Last => *asked = LineAnswer::Is(Command::Last(dict)),
                OneDictionary::Walk => *asked = LineAnswer::Is(Command::Walk(dict)),
                OneDictionary::Count => *asked = LineAnswer::Is(Command::Count(dict)),
                OneDictionary::Empty => *asked = LineAnswer::Is(Command::Empty(dict)),
                OneDictionary::Shut => *asked = LineAnswer::Is(Command::Shut(dict)),
            }
        }
        Err(fault) => *asked = LineAnswer::Bad(fault),
    }
}

// `D OBJ`.
#[inline(never)]
fn object_answer(
    alloc: Global,
    first: ObjectWord,
    others: &[&[u8]],
    asked: &mut LineAnswer,
) -> Result<(), OutOfMemory>
    ensures { OnOk result (asked.new
        ≡ answer_in dictionary_rows (object_spelling first) (map (λ w. w.now) others.now)) }
{
    match object_word_in(others) {
        Ok((dict, object)) => {
            let object = decoded(asked.take_room(alloc), object)?;
            let dict = dict.name();
            match first {
                ObjectWord::Insert => *asked = LineAnswer::Is(Command::Insert(dict, object)),
                ObjectWord::Append => *asked = LineAnswer::Is(Command::Append(dict, object)),
                ObjectWord::Attach => *asked = LineAnswer::Is(Command::Attach(dict, object)),
                ObjectWord::Detach => *asked = LineAnswer::Is(Command::Detach(dict, object)),
                ObjectWord::Search => *asked = LineAnswer::Is(Command::Search(dict, object)),
                ObjectWord::MatchKey => *asked = LineAnswer::Is(Command::MatchKey(dict, object)),
                ObjectWord::Next => *asked = LineAnswer::Is(Command::Next(dict, object)),
                ObjectWord::Prev => *asked = LineAnswer::Is(Command::Prev(dict, object)),
            }
        }
        Err(fault) => *asked = LineAnswer::Bad(fault),
    }
    Ok(())
}
