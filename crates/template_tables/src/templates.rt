//! Templates and tables.
ghost use Rattle.std.specs.Prelude.{◌≡◌};
ghost use Rattle.template_tables.specs.TemplatesView.{none_yet};

use crate::table::Table;
use indexmap::IndexMap;
use rule_binding::{ActionsTemplate, PatternTemplate};
use std::alloc::Global;
use std::marker::Model;

/// Both kinds of template, and the tables.
#[derive(Drop)]
pub struct Templates {
    pub(crate) patterns: IndexMap<u16, PatternTemplate>,
    pub(crate) actions: IndexMap<u16, ActionsTemplate>,
    pub(crate) tables: IndexMap<u16, Table>,
}

impl Model for Templates {
    ghost use Rattle.template_tables.specs.TemplatesView.{TemplatesView};

    ghost Value = { TemplatesView };

    ghost use Rattle.template_tables.specs.TemplatesInside.{templates_view, IsKept};

    ghost view = { templates_view };

    ghost invariant = { IsKept };
}

impl Templates {
    /// No templates and no tables.
    pub fn new(alloc: Global) -> Templates
        ensures { result ≡ none_yet }
    {
        Templates {
            patterns: IndexMap::new(alloc),
            actions: IndexMap::new(alloc),
            tables: IndexMap::new(alloc),
        }
    }
}
