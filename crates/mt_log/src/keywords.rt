ghost use Rattle.std.specs.Prelude.{◌≡◌, ◌≤◌, length};
ghost use Rattle.mt_log.specs.Keywords.{named, keyword_text};
ghost use Rattle.mt_log.specs.Reading.{keyword_read};

use crate::faults::Why;

/// The first field of a line.
#[derive(Clone, Copy, Debug, PartialEq, Eq)]
pub enum Keyword {
    Tree,
    Dup,
    Check,
    Lane,
    Join,
    Store,
    StorePre,
    Insert,
    Erase,
    Alloc,
    Ralloc,
    Gap,
    Rgap,
    Clear,
    Load,
    Find,
    Next,
    Prev,
    Rfind,
    Scan,
}

/// The words of the language, each beside its keyword and what its line says: the form of its fields, and what is made from
/// them. They are the last arguments of the macro `then`. The most frequent ones come first, because a word is looked up in
/// this order.
macro_rules! words {
    ($then:ident, $($argument:tt)*) => {
        $then!($($argument)*,
            "load" Load index_query(Load),
            "store" Store range_call(Store),
            "find" Find bound_query(Find max),
            "erase" Erase index_call(Erase),
            "insert" Insert range_call(Insert),
            "alloc" Alloc area_entry_call(Alloc),
            "next" Next bound_query(Next max),
            "prev" Prev bound_query(Prev min),
            "scan" Scan scan(),
            "rfind" Rfind bound_query(Rfind min),
            "ralloc" Ralloc area_entry_call(Ralloc),
            "gap" Gap area_call(Gap),
            "rgap" Rgap area_call(Rgap),
            "pstore" StorePre range_call(StorePre),
            "clear" Clear whole_call(Clear),
            "lane" Lane lane(),
            "tree" Tree declaration(),
            "dup" Dup copy(),
            "check" Check check(),
            "join" Join join())
    };
}

pub(crate) use words;

/// The keywords in the order of the table.
macro_rules! keywords_in {
    ($type:ident, $($text:literal $keyword:ident $form:ident($($part:ident)*)),*) => {
        &[$($type::$keyword),*]
    };
}

const KEYWORDS: &[Keyword] = words!(keywords_in, Keyword);

/// The keyword of these whose word this is.
fn named(keywords: &[Keyword], word: &[u8]) -> Option<Keyword>
    ensures { result ≡ named word.now keywords.now }
{
    keywords
        .iter()
        .copied()
        .find(|keyword| word == word_of(*keyword))
}

/// The keyword that a line's first field is.
#[tactic(auto, unfolding(crate::specs::Reading::keyword_read))]
pub fn keyword_of(word: &[u8]) -> Result<Keyword, Why>
    ensures { result ≡ keyword_read word.now }
{
    named(KEYWORDS, word).ok_or(Why::Unknown)
}

/// The word of a keyword.
macro_rules! word_in {
    ($keyword:ident, $($text:literal $name:ident $form:ident($($part:ident)*)),*) => {
        match $keyword {
            $(Keyword::$name => $text.as_bytes(),)*
        }
    };
}

/// The word of a keyword, of at most 6 bytes.
pub fn word_of(keyword: Keyword) -> &'static [u8]
    ensures word { result.now ≡ keyword_text keyword }
    ensures short { length result.now ≤ 6 }
{
    words!(word_in, keyword)
}
