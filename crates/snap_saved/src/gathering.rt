// A layer that is gathered a piece at a time.
ghost use Rattle.std.specs.Prelude.{◌≡◌, ◌⊎◌, IfErr, IfOk, IsErrOf, OnErr, OnOk, Ok, Err};
ghost use Rattle.snap_path.specs.Memory.{no_memory};
ghost use Rattle.snap_layer.specs.Layers.{IsLayer};
ghost use Rattle.snap_saved.specs.Pieces.{begun_file, begun_layer, body_with, file_closed, gathered_layer, with_bytes, with_file_name, with_piece};
ghost use Rattle.snap_saved.specs.declared.error.PieceError.{PieceError as PieceFault};
ghost use Rattle.snap_saved.specs.declared.error.PieceError.TheVariants as piece_errors;
ghost use Rattle.snap_saved.specs.declared.error.RestoreError.TheVariants.{OutOfMemory};
ghost use Rattle.snap_saved.specs.declared.piece.Piece.TheVariants as piece_kinds;

use super::error::{PieceError, RestoreError};
use super::file::SavedFile;
use super::piece::{FileKind, Head, Piece};
use super::restoring::restore;
use super::saved::Saved;
use snap_layer::{Body, Bytes, Content, Layer};
use snap_path::Path;
use snap_path::limits::MAX_FILE_BYTES;
use std::alloc::{AllocError, Global};
use std::marker::Model;

/// A file or symlink, as far as its pieces have come.
#[derive(Debug, Drop)]
struct OpenFile {
    number: u32,
    kind: FileKind,
    bytes: Vec<u8>,
    names: Vec<Path>,
}

impl Model for OpenFile {
    ghost use Rattle.snap_saved.specs.Pieces.{body_with};
    ghost use Rattle.snap_saved.specs.Values.{SavedFileValue};

    ghost Value = { SavedFileValue };

    ghost view = { λ f. record { number = f.number; body = body_with f.kind f.bytes.items; names = f.names.items } };
}

/// A layer, as far as its pieces have come. Contracts see it as a `GatheringValue`.
#[derive(Debug, Drop)]
pub struct Gathering {
    alloc: Global,
    parts: Saved,
    file: Option<OpenFile>,
}

impl Model for Gathering {
    ghost use Rattle.snap_saved.specs.Pieces.{GatheringValue};

    ghost Value = { GatheringValue };

    ghost view = { λ g. record { parts = g.parts; file = g.file } };
}

/// What it has, with the bytes where they are kept.
fn body_with(kind: FileKind, bytes: Vec<u8>) -> Body
    ensures { result ≡ body_with kind bytes.items }
{
    match kind {
        FileKind::Bytes { meta } => Body::File {
            meta,
            content: Content::Bytes(Bytes::new(bytes)),
        },
        FileKind::Sized { meta, size, digest } => Body::File {
            meta,
            content: Content::Sized { size, digest },
        },
        FileKind::Symlink { target } => Body::Symlink { target },
    }
}

impl OpenFile {
    /// It begins.
    fn begin(alloc: Global, number: u32, kind: FileKind) -> OpenFile
        ensures { result ≡ begun_file number kind }
    {
        OpenFile {
            number,
            kind,
            bytes: Vec::new(alloc),
            names: Vec::new(alloc),
        }
    }

    /// Adds bytes.
    fn add_bytes(&mut self, more: &[u8]) -> Result<(), PieceError>
        ensures ok { OnOk result (with_bytes more.now self.old self.old.body ≡ Ok self.new) }
        ensures first { (e : PieceFault) → with_bytes more.now self.old self.old.body ≡ Err e → IsErrOf result e }
        ensures refused { IfErr result (λ e. (with_bytes more.now self.old self.old.body ≡ Err e) ⊎ (e ≡ piece_errors.OutOfMemory no_memory)) }
        ensures err { OnErr result (self.new ≡ self.old) }
    {
        let FileKind::Bytes { meta: _ } = &self.kind else {
            return Err(PieceError::Misplaced);
        };
        if self.bytes.len() as u64 + more.len() as u64 > MAX_FILE_BYTES {
            return Err(PieceError::TooBig);
        }
        self.bytes.extend_from_slice(more)?;
        Ok(())
    }

    /// Adds a name.
    fn add_name(&mut self, name: Path) -> Result<(), AllocError>
        ensures ok { OnOk result (self.new ≡ with_file_name name self.old) }
        ensures err { OnErr result (self.new ≡ self.old) }
    {
        self.names.push(name)?;
        Ok(())
    }

    /// No piece of it comes any more.
    fn close(self) -> SavedFile
        ensures { result ≡ self }
    {
        let OpenFile {
            number,
            kind,
            bytes,
            names,
        } = self;
        SavedFile {
            number,
            body: body_with(kind, bytes),
            names,
        }
    }
}

impl Gathering {
    /// A layer before its first piece. Takes no memory.
    pub fn begin(alloc: Global, head: Head) -> Gathering
        ensures { result ≡ begun_layer head }
    {
        let Head {
            meta,
            opaque,
            next,
            most,
        } = head;
        Gathering {
            alloc,
            parts: Saved {
                meta,
                opaque,
                dirs: Vec::new(alloc),
                whiteouts: Vec::new(alloc),
                files: Vec::new(alloc),
                next,
                most,
            },
            file: None,
        }
    }

    /// No piece of its last file comes any more.
    fn close_file(&mut self) -> Result<(), AllocError>
        ensures ok { OnOk result (self.new ≡ file_closed self.old) }
        ensures err { OnErr result (self.new ≡ self.old) }
    {
        self.parts.files.reserve(1)?;
        if let Some(file) = self.file.take() {
            self.parts.files.push_reserved(file.close());
        }
        Ok(())
    }

    /// Adds bytes to its last file.
    fn add_bytes(&mut self, more: &[u8]) -> Result<(), PieceError>
        ensures ok { OnOk result (with_piece self.old (piece_kinds.Bytes more.now) ≡ Ok self.new) }
        ensures first { (e : PieceFault) → with_piece self.old (piece_kinds.Bytes more.now) ≡ Err e → IsErrOf result e }
        ensures refused { IfErr result (λ e. (with_piece self.old (piece_kinds.Bytes more.now) ≡ Err e) ⊎ (e ≡ piece_errors.OutOfMemory no_memory)) }
        ensures err { OnErr result (self.new ≡ self.old) }
    {
        match &mut self.file {
            Some(file) => file.add_bytes(more),
            None => Err(PieceError::Misplaced),
        }
    }

    /// Adds a name to its last file or symlink.
    fn add_name(&mut self, name: Path) -> Result<(), PieceError>
        ensures ok { OnOk result (with_piece self.old (piece_kinds.Name name) ≡ Ok self.new) }
        ensures first { (e : PieceFault) → with_piece self.old (piece_kinds.Name name) ≡ Err e → IsErrOf result e }
        ensures refused { IfErr result (λ e. (with_piece self.old (piece_kinds.Name name) ≡ Err e) ⊎ (e ≡ piece_errors.OutOfMemory no_memory)) }
        ensures err { OnErr result (self.new ≡ self.old) }
    {
        match &mut self.file {
            Some(file) => {
                file.add_name(name)?;
                Ok(())
            }
            None => Err(PieceError::Misplaced),
        }
    }

    /// Adds a piece, which comes after those that were added.
    ///
    /// `Misplaced` for bytes where the last file or symlink keeps none, and for bytes and names where none has begun;
    /// `TooBig` where a file has more than 1,048,576 bytes; `OutOfMemory` where memory is refused. After an error the
    /// layer is as it was. Takes memory for the piece. The cost is constant, but for a copy of bytes.
    pub fn put(&mut self, piece: Piece) -> Result<(), PieceError>
        ensures ok { OnOk result (with_piece self.old piece ≡ Ok self.new) }
        ensures first { (e : PieceFault) → with_piece self.old piece ≡ Err e → IsErrOf result e }
        ensures refused { IfErr result (λ e. (with_piece self.old piece ≡ Err e) ⊎ (e ≡ piece_errors.OutOfMemory no_memory)) }
        ensures err { OnErr result (self.new ≡ self.old) }
    {
        match piece {
            Piece::Dir(dir) => self.parts.dirs.push(dir)?,
            Piece::Whiteout(path) => self.parts.whiteouts.push(path)?,
            Piece::File { number, kind } => {
                self.close_file()?;
                self.file = Some(OpenFile::begin(self.alloc, number, kind));
            }
            Piece::Bytes(bytes) => self.add_bytes(bytes.as_slice())?,
            Piece::Name(name) => self.add_name(name)?,
        }
        Ok(())
    }

    /// The layer of its pieces, once all have come. What [`Saved::into_pieces`] gives of a layer makes it again.
    ///
    /// The errors, the memory and the cost are those of [`restore`].
    pub fn restore(mut self) -> Result<Layer, RestoreError>
        ensures ok { IfOk result (λ l. gathered_layer self ≡ Ok l) }
        ensures layer { IfOk result (λ l. IsLayer l) }
        ensures refused { IfErr result (λ e. (gathered_layer self ≡ Err e) ⊎ (e ≡ OutOfMemory no_memory)) }
    {
        self.close_file()?;
        let Gathering {
            alloc,
            parts,
            file: _,
        } = self;
        restore(alloc, parts)
    }
}
