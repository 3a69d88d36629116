//! News: a route that is due to a client where nothing was due or told.

ghost use Rattle.std.specs.Prelude.{◌≡◌, None, map, IfOk, IfSome};
ghost use Rattle.rs_outlet.specs.Decided.News.{change_of, seen, slot_of, slot_with};

use crate::changes::Change;
use crate::waiting::{Due, Told, Wait};
use rs_attrs::Attrs;
use rs_octets::Prefix;
use std::alloc::{AllocError, Global};
use std::sync::Arc;

/// The slot where these attributes wait, of a prefix of which nothing was told.
pub(crate) fn slot_for(number: u32, prefix: Prefix, attrs: &Attrs) -> Wait
    ensures { result ≡ slot_with number prefix attrs.now }
{
    Wait {
        prefix,
        due: Due::Announced {
            number,
            hash: attrs.kept_hash(),
        },
        marked: false,
        open: true,
        told: Told::Nothing,
    }
}

/// A route that is due where nothing was due or told.
#[derive(Drop)]
pub(crate) struct News {
    pub(crate) number: u32,
    pub(crate) prefix: Prefix,
    pub(crate) attrs: Arc<Attrs>,
}

impl News {
    /// The same once more, which shares the attributes.
    pub(crate) fn copy(&self) -> Result<News, AllocError>
        ensures { IfOk result (λ copy. seen (change_of copy) ≡ seen (change_of self.now)) }
    {
        Ok(News {
            number: self.number,
            prefix: self.prefix,
            attrs: self.attrs.clone()?,
        })
    }

    /// The news that a change is, where something is due.
    pub(crate) fn of(change: &Change) -> Result<Option<News>, AllocError>
        ensures same { IfOk result (λ made. IfSome made (λ news. seen (change_of news) ≡ seen change.now)) }
        ensures none { IfOk result (λ made. made ≡ None → change.now.due ≡ None) }
    {
        match &change.due {
            None => Ok(None),
            Some(attrs) => Ok(Some(News {
                number: change.number,
                prefix: change.prefix,
                attrs: attrs.clone()?,
            })),
        }
    }

    /// The news that a change is, where something is due. The change is gone.
    fn out_of(change: Change) -> Option<News>
        ensures { IfSome result (λ news. change_of news ≡ change) }
    {
        Some(News {
            number: change.number,
            prefix: change.prefix,
            attrs: change.due?,
        })
    }

    /// The change that they are.
    pub(crate) fn change(&self) -> Result<Change, AllocError>
        ensures { IfOk result (λ change. seen change ≡ seen (change_of self.now)) }
    {
        Ok(Change {
            number: self.number,
            prefix: self.prefix,
            due: Some(self.attrs.clone()?),
        })
    }

    /// The slot where they wait.
    pub(crate) fn slot(&self) -> Wait
        ensures { result ≡ slot_of self.now }
    {
        slot_for(self.number, self.prefix, &self.attrs)
    }
}

/// The news that changes are, each of a route that is due. It is refused where one is of none.
pub(crate) fn all_news(alloc: Global, changes: Vec<Change>) -> Result<Vec<News>, AllocError>
    ensures { IfOk result (λ news. map change_of news.items ≡ changes.items) }
{
    let mut news = Vec::with_capacity(alloc, changes.len())?;
    for change in changes {
        let Some(one) = News::out_of(change) else {
            return Err(AllocError);
        };
        news.push(one)?;
    }
    Ok(news)
}
