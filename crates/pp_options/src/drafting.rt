//! How a draft takes each item.
ghost use Rattle.std.specs.Prelude.{◌≡◌, ◌+◌, ◌<◌, ◌≤◌, ◌^◌, [], length, option_map, IfOk, IsTrue};
ghost use Rattle.std.specs.List.{list_all};
ghost use Rattle.pp_model.specs.declared.report.Report.TheVariants as reports;
ghost use Rattle.pp_options.specs.Conditions.{is_fair, is_patterned};
ghost use Rattle.pp_options.specs.Items.{is_fair_item};
ghost use Rattle.pp_options.specs.Words.{has_other_kind, is_full};
ghost use Rattle.pp_options.specs.Drafts.{request_in, TakesOrigin, Took, TakesItem, IsDraftOf};
ghost use Rattle.pp_options.specs.declared.item.Item.TheVariants as items;

use crate::draft::Draft;
use crate::item::{Item, refuse};
use crate::{Origin, UsageKind, UsageRefusal};
use pp_base::{List, Memory, Text};
use pp_model::{BaseKind, Config, Report};
use std::alloc::Global;

// The most origins and bases together.
const MOST: usize = 256;

impl Draft {
    /// The draft of no words: each variable is at its default.
    pub fn new(alloc: Global) -> Result<Draft, Memory>
        ensures { IfOk result (λ draft. IsDraftOf draft []) }
    {
        let config = Config::standard(alloc)?;
        Ok(Draft {
            origins: List::new(alloc),
            bases: List::new(alloc),
            base_kind: None,
            normalize: false,
            normalized_at: None,
            report: None,
            config,
        })
    }

    /// Takes what the word asks for. `at` is the number of the word, from 1, which a fault tells. `Err` where the word
    /// can't stand after those before it, or there is no memory.
    pub fn take(&mut self, at: u64, item: Item) -> Result<(), UsageRefusal>
        requires { IsTrue (is_fair_item item) }
        ensures { TakesItem self.old self.new at item result }
    {
        match item {
            Item::Source(path) => self.take_origin(at, Origin::Path(path)),
            Item::Gen(samples) => self.take_origin(at, Origin::Gen(samples)),
            Item::Base(kind, path) => self.take_base(at, kind, path),
            Item::Normalize(on) => {
                self.take_normalize(at, on);
                Ok(())
            }
            Item::Format(report) => self.take_report(at, report),
            Item::Set(setting) => {
                setting.assign(&mut self.config);
                Ok(())
            }
        }
    }

    fn take_origin(&mut self, at: u64, origin: Origin) -> Result<(), UsageRefusal>
        requires { IsTrue (is_fair origin) }
        ensures { TakesOrigin self.old self.new at origin result }
    {
        if self.is_full() {
            return refuse(UsageKind::TooMany, at);
        }
        self.origins.push(origin)?;
        Ok(())
    }

    fn take_base(&mut self, at: u64, kind: BaseKind, path: Text) -> Result<(), UsageRefusal>
        ensures { TakesItem self.old self.new at (items.Base kind path) result }
    {
        if self.has_other_kind(kind) {
            return refuse(UsageKind::BaseTwice, at);
        }
        if self.is_full() {
            return refuse(UsageKind::TooMany, at);
        }
        self.bases.push(path)?;
        self.base_kind = Some(kind);
        Ok(())
    }

    // Whether there are as many origins and bases as there can be.
    fn is_full(&self) -> bool
        ensures { result ≡ is_full (request_in self.now) }
    {
        self.origins.len() + self.bases.len() >= MOST
    }

    // Whether there is a base of another kind.
    fn has_other_kind(&self, kind: BaseKind) -> bool
        ensures { result ≡ has_other_kind kind self.now.base_kind }
    {
        match self.base_kind {
            Some(known) => known != kind,
            None => false,
        }
    }

    fn take_normalize(&mut self, at: u64, on: bool)
        ensures { Took self.old self.new at (items.Normalize on) }
    {
        if on && self.normalized_at.is_none() {
            self.normalized_at = Some(at);
        }
        self.normalize = on;
    }

    fn take_report(&mut self, at: u64, report: Report) -> Result<(), UsageRefusal>
        requires { IsTrue (is_patterned report) }
        ensures { TakesItem self.old self.new at (items.Format report) result }
    {
        if self.report.is_some() {
            return refuse(UsageKind::TwoFormats, at);
        }
        self.report = Some(report);
        Ok(())
    }
}
