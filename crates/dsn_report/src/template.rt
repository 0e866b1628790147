//! A template of notices: a site's own words in place of this project's.
//! Implements the templates of Postfix's bounce(5).
ghost use Rattle.std.specs.Prelude.{◌≡◌, IfErr, IfOk};
ghost use Rattle.dsn_report.specs.Template.{IsReadAs, IsRefusedFile, IsTemplate, has_eight_bit_text};
ghost use Rattle.dsn_report.specs.inner.Template.{template_in};

use crate::template_fault::TemplateFault;
use crate::template_parts::TemplateParts;
use std::alloc::{AllocError, Global};
use std::marker::Model;

/// The words of a notice before its recipients: the charset, the values of From and Subject, and a
/// text of 1 to 32,768 bytes.
#[derive(Debug, Drop)]
pub struct Template {
    charset: Vec<u8>,
    sender: Vec<u8>,
    subject: Vec<u8>,
    text: Vec<u8>,
    /// Whether some line of the text has a byte above 127. It is known once, and needed for each
    /// notice.
    eight_bit: bool,
}

impl Model for Template {
    ghost use Rattle.std.specs.Prelude.{◌≡◌};
    ghost use Rattle.dsn_report.specs.Template.{IsTemplate, Template, has_eight_bit_text};

    ghost Value = { Template };

    ghost view = { λ t. record {
      charset = t.charset.items;
      sender = t.sender.items;
      subject = t.subject.items;
      text = t.text.items;
    } };

    ghost invariant = { λ t.
        IsTemplate (record {
          charset = t.charset.items;
          sender = t.sender.items;
          subject = t.subject.items;
          text = t.text.items;
        })
        × (t.eight_bit
        ≡ has_eight_bit_text (record {
          charset = t.charset.items;
          sender = t.sender.items;
          subject = t.subject.items;
          text = t.text.items;
        })) };
}

impl Template {
    /// Returns the template in a file. The file has the lines `Charset: `, `From: ` and `Subject: `,
    /// in this order and each with its value, an empty line, and the text. Lines end with LF; those
    /// of the text may end with CR and LF.
    ///
    /// Returns the first fault in the order of [`TemplateFault`] if it is no legal template. Returns
    /// `NoMemory` only if memory for it was refused.
    pub fn read(alloc: Global, file: &[u8]) -> Result<Template, TemplateFault>
        ensures read { IfOk result (IsReadAs file.now) }
        ensures refused { IfErr result (IsRefusedFile file.now) }
    {
        let Some(parts) = TemplateParts::of(file) else {
            return Err(TemplateFault::Layout);
        };
        if let Some(fault) = parts.first_fault() {
            return Err(fault);
        }
        match Template::kept(alloc, parts) {
            Ok(template) => Ok(template),
            Err(_) => Err(TemplateFault::NoMemory),
        }
    }

    /// Copies the values of a legal template.
    fn kept(alloc: Global, parts: TemplateParts<'_>) -> Result<Template, AllocError>
        requires { IsTemplate (template_in parts) }
        ensures { IfOk result (λ template. template ≡ template_in parts.entry) }
    {
        Ok(Template {
            charset: parts.charset.to_vec(alloc)?,
            sender: parts.sender.to_vec(alloc)?,
            subject: parts.subject.to_vec(alloc)?,
            text: parts.text.to_vec(alloc)?,
            eight_bit: parts.has_eight_bit_text(),
        })
    }

    /// The charset of the text.
    pub fn charset(&self) -> &[u8]
        ensures same { result.now ≡ self.now.charset }
        ensures legal { IsTemplate self.now }
    {
        self.charset.as_slice()
    }

    /// The value of From.
    pub fn sender(&self) -> &[u8]
        ensures { result.now ≡ self.now.sender }
    {
        self.sender.as_slice()
    }

    /// The value of Subject.
    pub fn subject(&self) -> &[u8]
        ensures { result.now ≡ self.now.subject }
    {
        self.subject.as_slice()
    }

    /// The text.
    pub fn text(&self) -> &[u8]
        ensures same { result.now ≡ self.now.text }
        ensures legal { IsTemplate self.now }
    {
        self.text.as_slice()
    }

    /// Whether some line of the text has a byte above 127.
    pub fn has_eight_bit_text(&self) -> bool
        ensures { result ≡ has_eight_bit_text self.now }
    {
        self.eight_bit
    }
}
