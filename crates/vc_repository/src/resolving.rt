//! What an expression names over files.
ghost use Rattle.std.specs.Prelude.{◌≡◌, Ok, IfOk, IfErr, IsErrOf};
ghost use Rattle.vc_files.specs.Failures.{Wears};
ghost use Rattle.vc_repository.specs.Resolving.{DenotesIn, IsIndexFor, IsOfExpr, IsOfIndexFor};
ghost use Rattle.vc_expression.specs.Views.{expr_view};

use crate::files::FileRepository;
use crate::index::read_index;
use std::alloc::Global;
use vc_expression::Expr;
use vc_files::{Fault, Files};
use vc_index::Index;
use vc_object::ObjectId;
use vc_object_map::StoreFault;
use vc_refs::PackedCache;
use vc_rev::{RevFault, SourceFault};

// The index that the expression is resolved with: the file's where it reads the index, else an empty one.
fn index_for<F: Files>(alloc: Global, files: &mut F, expr: &Expr<'_>) -> Result<Index, SourceFault>
    ensures index { F.honest → IfOk result (IsIndexFor (F.content files.old) (expr_view expr.now)) }
    ensures refused { F.honest → IfErr result (IsOfIndexFor (F.content files.old) (expr_view expr.now)) }
    ensures same { F.content files.new ≡ F.content files.old }
    ensures wear { Wears F.failed F.can_fail F.left files.old files.new (IsErrOf result (SourceFault.Store (StoreFault.Fault Fault.Device))) }
{
    match expr {
        Expr::InIndex(_) => {
            let index = read_index(alloc, files)?;
            Ok(index)
        }
        Expr::InTree(_, _) => Ok(Index::new(alloc)),
        Expr::Object(_) => Ok(Index::new(alloc)),
    }
}

/// The object that an expression names. The file `index` is read where the expression names a path of it, and there alone.
pub fn resolve<F: Files>(
    alloc: Global,
    files: &mut F,
    expr: &Expr<'_>,
) -> Result<ObjectId, RevFault>
    ensures value { F.honest → IfOk result (λ id. DenotesIn (F.content files.old) (expr_view expr.now) (Ok id)) }
    ensures refused { F.honest → IfErr result (IsOfExpr (F.content files.old) (expr_view expr.now)) }
    ensures same { F.content files.new ≡ F.content files.old }
    ensures wear { Wears F.failed F.can_fail F.left files.old files.new (IsErrOf result (RevFault.Source (SourceFault.Store (StoreFault.Fault Fault.Device)))) }
{
    let index = match index_for(alloc, files, expr) {
        Ok(index) => index,
        Err(fault) => return Err(RevFault::Source(fault)),
    };
    let mut packed = PackedCache::new(alloc);
    let mut repository = FileRepository::new(alloc, files, &index, &mut packed);
    match vc_rev::resolve(alloc, &mut repository, expr) {
        Ok(id) => Ok(id),
        Err(fault) => Err(fault),
    }
}
