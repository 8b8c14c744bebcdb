// The pieces of a saved layer.
ghost use Rattle.std.specs.Prelude.{◌≡◌, ◌++◌, [], map, flat_map, OnOk, IfOk, Some};
ghost use Rattle.std.specs.Option.{option_map_or};
ghost use Rattle.snap_layer.specs.Layers.{IsLayer};
ghost use Rattle.snap_layer.specs.Tree.{Tree};
ghost use Rattle.snap_saved.specs.Pieces.{byte_pieces, bytes_in_pieces, file_kind, file_pieces, head_of, layer_of_pieces, pieces_of};
ghost use Rattle.snap_saved.specs.Saved.{saved};
ghost use Rattle.snap_saved.specs.declared.piece.Piece.TheVariants as piece_kinds;

use super::dir::SavedDir;
use super::file::SavedFile;
use super::piece::{FileKind, Head, PIECE_BYTES, Piece};
use super::saved::Saved;
use snap_layer::{Body, Bytes, Content};
use snap_path::Path;
use std::alloc::{AllocError, Global};

/// Adds the bytes in pieces.
fn push_bytes(alloc: Global, bytes: &[u8], pieces: &mut Vec<Piece>) -> Result<(), AllocError>
    ensures { OnOk result (pieces.new.items ≡ pieces.old.items ++ map piece_kinds.Bytes (bytes_in_pieces bytes.now)) }
{
    let mut rest = bytes;
    while !rest.is_empty() {
        let (first, others) = rest.split_at(rest.len().min(PIECE_BYTES));
        pieces.push(Piece::Bytes(Bytes::copy_of(alloc, first)?))?;
        rest = others;
    }
    Ok(())
}

/// What a file or symlink is, and its bytes, where they are kept.
fn kind_and_bytes(body: Body) -> (FileKind, Option<Bytes>)
    ensures kind { result.0 ≡ file_kind body }
    ensures bytes { option_map_or (λ bytes. map piece_kinds.Bytes (bytes_in_pieces bytes)) result.1 [] ≡ byte_pieces body }
{
    match body {
        Body::File {
            meta,
            content: Content::Bytes(bytes),
        } => (FileKind::Bytes { meta }, Some(bytes)),
        Body::File {
            meta,
            content: Content::Sized { size, digest },
        } => (FileKind::Sized { meta, size, digest }, None),
        Body::Symlink { target } => (FileKind::Symlink { target }, None),
    }
}

/// Adds the names.
fn push_names(names: Vec<Path>, pieces: &mut Vec<Piece>) -> Result<(), AllocError>
    ensures { OnOk result (pieces.new.items ≡ pieces.old.items ++ map piece_kinds.Name names.items) }
{
    for name in names {
        pieces.push(Piece::Name(name))?;
    }
    Ok(())
}

/// Adds the pieces of a file or symlink.
fn push_file(alloc: Global, file: SavedFile, pieces: &mut Vec<Piece>) -> Result<(), AllocError>
    ensures { OnOk result (pieces.new.items ≡ pieces.old.items ++ file_pieces file) }
{
    let SavedFile {
        number,
        body,
        names,
    } = file;
    let (kind, bytes) = kind_and_bytes(body);
    pieces.push(Piece::File { number, kind })?;
    if let Some(bytes) = bytes {
        push_bytes(alloc, bytes.as_slice(), pieces)?;
    }
    push_names(names, pieces)
}

/// Adds the pieces of files and symlinks.
fn push_files(
    alloc: Global,
    files: Vec<SavedFile>,
    pieces: &mut Vec<Piece>,
) -> Result<(), AllocError>
    ensures { OnOk result (pieces.new.items ≡ pieces.old.items ++ flat_map file_pieces files.items) }
{
    for file in files {
        push_file(alloc, file, pieces)?;
    }
    Ok(())
}

/// Adds the directories.
fn push_dirs(dirs: Vec<SavedDir>, pieces: &mut Vec<Piece>) -> Result<(), AllocError>
    ensures { OnOk result (pieces.new.items ≡ pieces.old.items ++ map piece_kinds.Dir dirs.items) }
{
    for dir in dirs {
        pieces.push(Piece::Dir(dir))?;
    }
    Ok(())
}

/// Adds the whiteouts.
fn push_whiteouts(whiteouts: Vec<Path>, pieces: &mut Vec<Piece>) -> Result<(), AllocError>
    ensures { OnOk result (pieces.new.items ≡ pieces.old.items ++ map piece_kinds.Whiteout whiteouts.items) }
{
    for path in whiteouts {
        pieces.push(Piece::Whiteout(path))?;
    }
    Ok(())
}

impl Saved {
    /// What the layer has besides its pieces, and these: its directories, its whiteouts, its files and symlinks, each
    /// with its bytes, at most 262,144 in a piece, and its names. [`Gathering`](super::gathering::Gathering) makes the
    /// layer of them again.
    ///
    /// It fails only where memory is refused. Takes memory for the list, and for a copy of each file's bytes. Cost: the
    /// number of pieces, and these bytes.
    pub fn into_pieces(self, alloc: Global) -> Result<(Head, Vec<Piece>), AllocError>
        ensures head { IfOk result (λ p. p.0 ≡ head_of self) }
        ensures pieces { IfOk result (λ p. p.1.items ≡ pieces_of self) }
        ensures back { (t : Tree) → IsLayer t → saved t ≡ self → IfOk result (λ p. layer_of_pieces p.0 p.1.items ≡ Some t) }
    {
        let Saved {
            meta,
            opaque,
            dirs,
            whiteouts,
            files,
            next,
            most,
        } = self;
        let mut pieces = Vec::new(alloc);
        push_dirs(dirs, &mut pieces)?;
        push_whiteouts(whiteouts, &mut pieces)?;
        push_files(alloc, files, &mut pieces)?;
        let head = Head {
            meta,
            opaque,
            next,
            most,
        };
        Ok((head, pieces))
    }
}
