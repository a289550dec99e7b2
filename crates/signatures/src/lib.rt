// The groups of a name: its signatures among the entries of a package.
#![tactic(auto)]

ghost use Rattle.std.specs.Prelude.{◌≡◌, List};
ghost use Rattle.std.specs.Iterator.{YieldsFirst, item_count};
ghost use Rattle.library.specs.Package.{Signature};
ghost use Rattle.signatures.specs.Groups.{group};

pub use library::{Entries, Signature};
use std::marker::Model;
use tok::Texts;

// The signatures of a name among the entries of a package, in order.
#[derive(Drop)]
pub struct Group<'a> {
    pub texts: &'a Texts<'a>,
    pub name: &'a [u8],
    pub entries: Entries<'a>,
}

impl<'a> Model for Group<'a> {
    ghost Value = { List Signature };

    ghost view = { λ g. group g.texts.now g.name.now g.entries };
}

impl<'a> Group<'a> {
    // Those of a name among some entries.
    pub fn new(texts: &'a Texts<'a>, name: &'a [u8], entries: &Entries<'a>) -> Group<'a>
        ensures { result ≡ group texts.now name.now entries.now }
    {
        Group {
            texts,
            name,
            entries: Entries {
                words: entries.words,
                flagged: entries.flagged,
                from: entries.from,
                count: entries.count,
            },
        }
    }

    // From the first on.
    pub fn iter(&self) -> Group<'a>
        ensures { result ≡ self.now }
    {
        Group::new(self.texts, self.name, &self.entries)
    }
}

impl<'a> Iterator for Group<'a> {
    type Item = Signature<'a>;

    ghost next_gives = { YieldsFirst (λ signatures. signatures) };

    ghost remaining = { item_count (λ signatures. signatures) };

    fn next(&mut self) -> Option<Signature<'a>> {
        let entries = &self.entries;
        let entry = entries.find(self.texts, self.name)?;
        let signature = Signature {
            words: entries.words,
            at: entry.at,
            slotted: entry.slotted,
        };
        self.entries = entries.after(entry);
        Some(signature)
    }
}
